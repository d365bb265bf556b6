// The pool: event records in two arrays that the caller lends, read and stored by number.
// Outside the pool a read gives a blank record, its own partner, and nothing is written: every number has an answer.
ghost use Rattle.std.specs.Prelude.{◌≡◌, [], if◌then◌else◌, nat_eq, slice_index_or, slice_set};
ghost use Rattle.events.specs.Event.{shown};
ghost use Rattle.events.specs.Pool.{pool, row_at, enter, store, event_of, point_of, marks_of, over, there_over, link_over, marks_over, flag_of, flag_number, link_of, there_number, link_number, edge_type_of, edge_type_number, transition_of, transition_number, blank, stored};
ghost use Rattle.events.specs.Store.{look};

use crate::{EdgeType, Event, ResultTransition, fresh_event};
use numbers::Point;

// A flag as a number.
pub fn number_of_flag(b: bool) -> u32
    ensures { result ≡ flag_number b }
{
    if b { 1 } else { 0 }
}

fn link_of(there: u32, n: u32) -> Option<u32>
    ensures { result ≡ link_of there n }
{
    if there == 1 {
        return Some(n);
    }
    None
}

fn number_of_there(l: Option<u32>) -> u32
    ensures { result ≡ there_number l }
{
    match l {
        None => 0,
        Some(_) => 1,
    }
}

fn number_of_link(l: Option<u32>) -> u32
    ensures { result ≡ link_number l }
{
    match l {
        None => 0,
        Some(n) => n,
    }
}

fn edge_type_of(n: u32) -> EdgeType
    ensures { result ≡ edge_type_of n }
{
    match n {
        0 => EdgeType::Normal,
        1 => EdgeType::NonContributing,
        2 => EdgeType::SameTransition,
        _ => EdgeType::DifferentTransition,
    }
}

fn number_of_edge_type(t: EdgeType) -> u32
    ensures { result ≡ edge_type_number t }
{
    match t {
        EdgeType::Normal => 0,
        EdgeType::NonContributing => 1,
        EdgeType::SameTransition => 2,
        EdgeType::DifferentTransition => 3,
    }
}

fn transition_of(n: u32) -> ResultTransition
    ensures { result ≡ transition_of n }
{
    match n {
        0 => ResultTransition::None,
        1 => ResultTransition::InOut,
        _ => ResultTransition::OutIn,
    }
}

fn number_of_transition(t: ResultTransition) -> u32
    ensures { result ≡ transition_number t }
{
    match t {
        ResultTransition::None => 0,
        ResultTransition::InOut => 1,
        ResultTransition::OutIn => 2,
    }
}

pub fn event_of(p: [u64; 2], m: [u32; 12]) -> Event
    ensures { shown result ≡ event_of p m }
{
    Event {
        point: Point { x: p[0], y: p[1] },
        left: m[0] == 1,
        subject: m[1] == 1,
        ring: m[2],
        partner: m[3],
        below: link_of(m[4], m[5]),
        edge_type: edge_type_of(m[6]),
        transition: transition_of(m[7]),
        in_out: m[8] == 1,
        other_in_out: m[9] == 1,
        contour: link_of(m[10], m[11]),
    }
}

fn blank_event(i: u32) -> Event
    ensures { shown result ≡ blank i }
{
    fresh_event(Point { x: 0, y: 0 }, false, false, 0, i)
}

pub fn read_event(points: &[[u64; 2]], marks: &[[u32; 12]], i: u32) -> Event
    ensures { shown result ≡ row_at (pool points.now marks.now) i }
{
    let at = i as usize;
    if at < points.len() {
        if at < marks.len() {
            return event_of(points[at], marks[at]);
        }
    }
    blank_event(i)
}

// The same where only the first places are in use: what lies beyond them is outside the pool.
pub fn read_used(points: &[[u64; 2]], marks: &[[u32; 12]], used: u32, i: u32) -> Event
    ensures { shown result ≡ look stored (pool points.now marks.now) used i }
{
    if i < used {
        return read_event(points, marks, i);
    }
    blank_event(i)
}

fn point_of(e: Event) -> [u64; 2]
    ensures { result ≡ point_of (shown e) }
{
    [e.point.x, e.point.y]
}

pub fn marks_of(e: Event) -> [u32; 12]
    ensures { result ≡ marks_of (shown e) }
{
    let below = e.below;
    let edge_type = e.edge_type;
    let transition = e.transition;
    let contour = e.contour;
    [
        number_of_flag(e.left),
        number_of_flag(e.subject),
        e.ring,
        e.partner,
        number_of_there(below),
        number_of_link(below),
        number_of_edge_type(edge_type),
        number_of_transition(transition),
        number_of_flag(e.in_out),
        number_of_flag(e.other_in_out),
        number_of_there(contour),
        number_of_link(contour),
    ]
}

// ---- marks over lent ones: a mark that says what it should stays

// The number n, unless the lent mark m says it.
fn kept_or(m: u32, says: u32, n: u32) -> u32
    ensures { result ≡ (if nat_eq says n then m else n) }
{
    if says == n {
        return m;
    }
    n
}

fn flag_over(m: u32, b: bool) -> u32
    ensures { result ≡ over flag_of flag_number m b }
{
    kept_or(m, number_of_flag(m == 1), number_of_flag(b))
}

fn edge_type_over(m: u32, t: EdgeType) -> u32
    ensures { result ≡ over edge_type_of edge_type_number m t }
{
    kept_or(
        m,
        number_of_edge_type(edge_type_of(m)),
        number_of_edge_type(t),
    )
}

fn transition_over(m: u32, t: ResultTransition) -> u32
    ensures { result ≡ over transition_of transition_number m t }
{
    kept_or(
        m,
        number_of_transition(transition_of(m)),
        number_of_transition(t),
    )
}

// The two marks of a link stay or change together.
pub fn there_over(there: u32, n: u32, l: Option<u32>) -> u32
    ensures { result ≡ there_over there n l }
{
    if link_of(there, n) == l {
        return there;
    }
    number_of_there(l)
}

pub fn link_over(there: u32, n: u32, l: Option<u32>) -> u32
    ensures { result ≡ link_over there n l }
{
    if link_of(there, n) == l {
        return n;
    }
    number_of_link(l)
}

pub fn marks_over(m: [u32; 12], e: Event) -> [u32; 12]
    ensures { result ≡ marks_over m (shown e) }
{
    let below = e.below;
    let edge_type = e.edge_type;
    let transition = e.transition;
    let contour = e.contour;
    [
        flag_over(m[0], e.left),
        flag_over(m[1], e.subject),
        e.ring,
        e.partner,
        there_over(m[4], m[5], below),
        link_over(m[4], m[5], below),
        edge_type_over(m[6], edge_type),
        transition_over(m[7], transition),
        flag_over(m[8], e.in_out),
        flag_over(m[9], e.other_in_out),
        there_over(m[10], m[11], contour),
        link_over(m[10], m[11], contour),
    ]
}

fn put_point(points: &mut [[u64; 2]], at: usize, p: [u64; 2])
    ensures { points.new ≡ slice_set points.old at p }
{
    if at < points.len() {
        points[at] = p;
    }
}

fn put_marks(marks: &mut [[u32; 12]], at: usize, m: [u32; 12])
    ensures { marks.new ≡ slice_set marks.old at m }
{
    if at < marks.len() {
        marks[at] = m;
    }
}

fn put_marks_over(marks: &mut [[u32; 12]], at: usize, e: Event)
    ensures { marks.new ≡ slice_set marks.old at (marks_over (slice_index_or marks.old at []) (shown e)) }
{
    if at < marks.len() {
        marks[at] = marks_over(marks[at], e);
    }
}

// A new record, written whole.
pub fn enter_event(points: &mut [[u64; 2]], marks: &mut [[u32; 12]], i: u32, e: Event)
    ensures { pool points.new marks.new ≡ enter (pool points.old marks.old) i (shown e) }
{
    let at = i as usize;
    put_point(points, at, point_of(e));
    put_marks(marks, at, marks_of(e));
}

// A record that is there already: a mark that says what it should stays as lent.
pub fn store_event(points: &mut [[u64; 2]], marks: &mut [[u32; 12]], i: u32, e: Event)
    ensures { pool points.new marks.new ≡ store (pool points.old marks.old) i (shown e) }
{
    let at = i as usize;
    put_point(points, at, point_of(e));
    put_marks_over(marks, at, e);
}
