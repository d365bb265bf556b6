// Edge class (`compute_fields.rs`): flags and below link from the lower neighbour, then what the operation makes of the edge.
#![tactic(auto)]

pub mod on_pool;

ghost use Rattle.std.specs.Prelude.{◌≡◌};
ghost use Rattle.events.specs.Event.{shown};
ghost use Rattle.class.specs.Class.{shown_neighbour, shown_lower, written, is_in_result, below_above, set_from_lower, in_result, normal_in_result, holds_above, direction, fields};

use events::{EdgeType, Event, ResultTransition};

#[derive(Clone, Copy, Debug, PartialEq, Eq)]
pub enum Operation {
    Intersection,
    Difference,
    Union,
    Xor,
}

// The left record of the edge next below, with its number.
#[derive(Clone, Copy)]
pub struct Neighbour {
    pub number: u32,
    pub event: Event,
    pub vertical: bool,
}

// The record with these flags, below link and transition.
fn with_fields(
    event: Event,
    in_out: bool,
    other_in_out: bool,
    below: Option<u32>,
    transition: ResultTransition,
) -> Event
    ensures { shown result ≡ written (shown event) in_out other_in_out below transition }
{
    let point = event.point;
    let edge_type = event.edge_type;
    let contour = event.contour;
    Event {
        point,
        left: event.left,
        subject: event.subject,
        ring: event.ring,
        partner: event.partner,
        below,
        edge_type,
        transition,
        in_out,
        other_in_out,
        contour,
    }
}

// What the record itself says.
#[tactic(auto, unfolding(events::specs::Event::has_transition))]
pub fn is_in_result(event: Event) -> bool
    ensures { result ≡ is_in_result (shown event) }
{
    event.transition != ResultTransition::None
}

// The neighbour if it is in the result and not vertical, else what it has below it.
fn below_above(lower: Neighbour) -> Option<u32>
    ensures { result ≡ below_above (shown_neighbour lower) }
{
    let prev = lower.event;
    let below = prev.below;
    if lower.vertical {
        return below;
    }
    if is_in_result(prev) {
        return Some(lower.number);
    }
    below
}

// Flags and below link from the lower neighbour.
fn set_from_lower(event: Event, lower: Option<Neighbour>) -> Event
    ensures { shown result ≡ set_from_lower (shown event) (shown_lower lower) }
{
    let transition = event.transition;
    match lower {
        None => with_fields(event, false, true, None, transition),
        Some(n) => {
            let prev = n.event;
            let below = below_above(n);
            if event.subject == prev.subject {
                return with_fields(event, !prev.in_out, prev.other_in_out, below, transition);
            }
            if n.vertical {
                return with_fields(event, !prev.other_in_out, !prev.in_out, below, transition);
            }
            with_fields(event, !prev.other_in_out, prev.in_out, below, transition)
        }
    }
}

// The record with its class computed anew from the edge next below.
pub fn compute_fields(event: Event, lower: Option<Neighbour>, operation: Operation) -> Event
    ensures { shown result ≡ fields operation (shown event) (shown_lower lower) }
{
    let e = set_from_lower(event, lower);
    let below = e.below;
    if in_result(e, operation) {
        let transition = determine_result_transition(e, operation);
        return with_fields(e, e.in_out, e.other_in_out, below, transition);
    }
    with_fields(e, e.in_out, e.other_in_out, below, ResultTransition::None)
}

// Whether the operation takes a Normal edge into the result, told from its own layer.
fn normal_in_result(subject: bool, other_in_out: bool, operation: Operation) -> bool
    ensures { result ≡ normal_in_result operation subject other_in_out }
{
    match operation {
        Operation::Intersection => !other_in_out,
        Operation::Union => other_in_out,
        Operation::Difference => {
            if subject {
                return other_in_out;
            }
            !other_in_out
        }
        Operation::Xor => true,
    }
}

// Whether the operation takes the edge into the result.
pub fn in_result(event: Event, operation: Operation) -> bool
    ensures { result ≡ in_result operation (shown event) }
{
    let edge_type = event.edge_type;
    match edge_type {
        EdgeType::Normal => normal_in_result(event.subject, event.other_in_out, operation),
        EdgeType::SameTransition => match operation {
            Operation::Intersection => true,
            Operation::Union => true,
            Operation::Difference => false,
            Operation::Xor => false,
        },
        EdgeType::DifferentTransition => match operation {
            Operation::Difference => true,
            Operation::Intersection => false,
            Operation::Union => false,
            Operation::Xor => false,
        },
        EdgeType::NonContributing => false,
    }
}

// Whether the operation holds above an edge, told from the edge's own layer.
fn holds_above(subject: bool, this_in: bool, that_in: bool, operation: Operation) -> bool
    ensures { result ≡ holds_above operation subject this_in that_in }
{
    match operation {
        Operation::Intersection => this_in & that_in,
        Operation::Union => this_in | that_in,
        Operation::Xor => this_in ^ that_in,
        Operation::Difference => {
            // Difference is asymmetric, so subject or clip matters.
            if subject {
                return this_in & !that_in;
            }
            that_in & !this_in
        }
    }
}

// Which way an edge of the result goes.
pub fn determine_result_transition(event: Event, operation: Operation) -> ResultTransition
    ensures { result ≡ direction operation (shown event) }
{
    if holds_above(event.subject, !event.in_out, !event.other_in_out, operation) {
        return ResultTransition::OutIn;
    }
    ResultTransition::InOut
}
