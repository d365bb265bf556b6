// What the words of a point mean, and all that is asked of them: at binary64, each the pattern of a number.
// Code above compares no word itself.
ghost use Rattle.std.specs.Prelude.{◌≡◌, not};
ghost use Rattle.events.specs.Binary64.{at_binary64, as_loaded, cross_of, in_mode, shown_meeting};
ghost use Rattle.events.specs.Coordinates.{same, ahead};
ghost use Rattle.events.specs.Under.{under};
ghost use Rattle.events.specs.Runs.{in_run, above_zero, below_zero, lower_words, at_most_words, higher_words};

use crossing::{LineIntersection, intersection};
use numbers::words::{is_unfit_word, number, unsigned_word, value, value_of, word, words_of};
use numbers::{Point, next_up};
use orientation::{Sign, signed_area};

const SIGN: u64 = 0x8000_0000_0000_0000;

const INFINITY: u64 = 0x7ff0_0000_0000_0000;

// What two segments have in common.
#[derive(Clone, Copy)]
pub enum Meeting {
    Nothing,
    At(Point),
    Along(Point, Point),
    Lost,
}

// So many words from the first on, 0 behind the greatest: for a quick test of many points against one.
#[derive(Clone, Copy)]
pub struct Run {
    pub first: u64,
    pub many: u64,
}

pub fn less_x(p: Point, q: Point) -> bool
    ensures { result ≡ at_binary64.less_x p q }
{
    value(p.x) < value(q.x)
}

pub fn less_y(p: Point, q: Point) -> bool
    ensures { result ≡ at_binary64.less_y p q }
{
    value(p.y) < value(q.y)
}

pub fn same_x(p: Point, q: Point) -> bool
    ensures { result ≡ at_binary64.same_x p q }
{
    value(p.x) == value(q.x)
}

pub fn same_y(p: Point, q: Point) -> bool
    ensures { result ≡ at_binary64.same_y p q }
{
    value(p.y) == value(q.y)
}

pub fn same_point(p: Point, q: Point) -> bool
    ensures { result ≡ same at_binary64 p q }
{
    if same_x(p, q) {
        return same_y(p, q);
    }
    false
}

// Earlier by x, then y.
pub fn is_ahead(p: Point, q: Point) -> bool
    ensures { result ≡ ahead at_binary64 p q }
{
    if less_x(p, q) {
        return true;
    }
    if less_x(q, p) {
        return false;
    }
    less_y(p, q)
}

// Refusal 2 looks at the words themselves.
pub fn is_unfit_point(p: Point) -> bool
    ensures { result ≡ not (at_binary64.fit p) }
{
    if is_unfit_word(p.x) {
        return true;
    }
    is_unfit_word(p.y)
}

pub fn turn(p: Point, q: Point, r: Point) -> Sign
    ensures { result ≡ at_binary64.turn p q r }
{
    signed_area(value_of(p), value_of(q), value_of(r))
}

// One step further in x, of the word itself: what is not fit stays so.
pub fn next_x(p: Point) -> Point
    ensures { result ≡ at_binary64.next_x p }
{
    Point {
        x: word(next_up(number(p.x))),
        y: p.y,
    }
}

// What loading stores: minus zero as zero.
pub fn as_loaded(p: Point) -> Point
    ensures { result ≡ as_loaded p }
{
    Point {
        x: unsigned_word(p.x),
        y: unsigned_word(p.y),
    }
}

fn in_words(found: LineIntersection) -> Meeting
    ensures { shown_meeting result ≡ cross_of found }
{
    match found {
        LineIntersection::None => Meeting::Nothing,
        LineIntersection::Point(p) => Meeting::At(words_of(p)),
        LineIntersection::Overlap(p, q) => Meeting::Along(words_of(p), words_of(q)),
        LineIntersection::Lost => Meeting::Lost,
    }
}

// In y all of the segment from a1 to a2 lies below all of that from b1 to b2.
pub fn is_under(a1: Point, a2: Point, b1: Point, b2: Point) -> bool
    ensures { result ≡ under at_binary64 a1 a2 b1 b2 }
{
    if less_y(a1, b1) {
        if less_y(a1, b2) {
            if less_y(a2, b1) {
                return less_y(a2, b2);
            }
        }
    }
    false
}

// Of the first segment and the second. Many neighbours lie apart: of those no number is made but four.
pub fn crossing(mode: u32, a1: Point, a2: Point, b1: Point, b2: Point) -> Meeting
    ensures { shown_meeting result ≡ in_mode mode a1 a2 b1 b2 }
{
    if is_under(a1, a2, b1, b2) {
        return Meeting::Nothing;
    }
    if is_under(b1, b2, a1, a2) {
        return Meeting::Nothing;
    }
    in_words(intersection(mode, value_of(a1), value_of(a2), value_of(b1), value_of(b2)))
}

fn is_above_zero(w: u64) -> bool
    ensures { result ≡ above_zero w }
{
    if 0 < w {
        return w < INFINITY;
    }
    false
}

fn is_below_zero(w: u64) -> bool
    ensures { result ≡ below_zero w }
{
    if SIGN < w {
        return w < SIGN + INFINITY;
    }
    false
}

// The words of a number lower than this word's.
fn lower_than(w: u64) -> Run
    ensures { result ≡ lower_words w }
{
    if is_above_zero(w) {
        return Run {
            first: SIGN,
            many: SIGN + w,
        };
    }
    if is_below_zero(w) {
        return Run {
            first: w + 1,
            many: SIGN + INFINITY - w - 1,
        };
    }
    Run {
        first: SIGN + 1,
        many: INFINITY - 1,
    }
}

// Of a y lower than this point's; of an x.
pub fn lower_y(p: Point) -> Run
    ensures { result ≡ lower_words p.y }
{
    lower_than(p.y)
}

pub fn lower_x(p: Point) -> Run
    ensures { result ≡ lower_words p.x }
{
    lower_than(p.x)
}

// Of an x not higher.
pub fn at_most_x(p: Point) -> Run
    ensures { result ≡ at_most_words p.x }
{
    if is_above_zero(p.x) {
        return Run {
            first: SIGN,
            many: SIGN + p.x + 1,
        };
    }
    if is_below_zero(p.x) {
        return Run {
            first: p.x,
            many: SIGN + INFINITY - p.x,
        };
    }
    Run {
        first: SIGN,
        many: SIGN + 1,
    }
}

// Of a higher x.
pub fn higher_x(p: Point) -> Run
    ensures { result ≡ higher_words p.x }
{
    if is_above_zero(p.x) {
        return Run {
            first: p.x + 1,
            many: INFINITY - p.x - 1,
        };
    }
    if is_below_zero(p.x) {
        return Run {
            first: 0,
            many: p.x,
        };
    }
    Run {
        first: 1,
        many: INFINITY - 1,
    }
}

fn is_in(run: Run, w: u64) -> bool
    ensures { result ≡ in_run run w }
{
    std::num::wrapping_sub_u64(w, run.first) < run.many
}

pub fn has_x(run: Run, p: Point) -> bool
    ensures { result ≡ in_run run p.x }
{
    is_in(run, p.x)
}

pub fn has_y(run: Run, p: Point) -> bool
    ensures { result ≡ in_run run p.y }
{
    is_in(run, p.y)
}
