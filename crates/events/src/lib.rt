// The event record (`sweep_event.rs`).
#![tactic(auto)]

ghost use Rattle.std.specs.Prelude.{◌≡◌};
ghost use Rattle.events.specs.Event.{shown, fresh};

pub mod points;
pub mod pool;

use numbers::Point;

#[derive(Clone, Copy, Debug, PartialEq, Eq)]
pub enum EdgeType {
    Normal,
    NonContributing,
    SameTransition,
    DifferentTransition,
}

#[derive(Clone, Copy, Debug, PartialEq, Eq)]
pub enum ResultTransition {
    None,
    InOut,
    OutIn,
}

// One end of an edge. Fields of one size stand together, so that an end is copied in whole words.
#[derive(Clone, Copy)]
pub struct Event {
    pub point: Point,
    pub ring: u32,
    // The number of the other end's record.
    pub partner: u32,
    // The next edge below that is in the result (`prev_in_result`).
    pub below: Option<u32>,
    // The contour that the edge is walked in (`output_contour_id`).
    pub contour: Option<u32>,
    pub left: bool,
    pub subject: bool,
    pub in_out: bool,
    pub other_in_out: bool,
    pub edge_type: EdgeType,
    pub transition: ResultTransition,
}

// An end that nothing is known of yet.
pub fn fresh_event(point: Point, left: bool, subject: bool, ring: u32, partner: u32) -> Event
    ensures { shown result ≡ fresh point left subject ring partner }
{
    Event {
        point: point,
        left: left,
        subject: subject,
        ring: ring,
        partner: partner,
        below: None,
        edge_type: EdgeType::Normal,
        transition: ResultTransition::None,
        in_out: false,
        other_in_out: false,
        contour: None,
    }
}
