// Neighbours: a is record 0 and b record 2, their segments in a pool of ten places where a case does not say otherwise.
use crate::pools::{Segment, USED};
use crate::{pools, told};
use crossing::{ORDERED, PLAIN};
use records::dividing::possible_intersection;
use std::io;
use test_pools::bits::*;
use test_pools::changes::{At, BELOW, IN_OUT, LEFT, NOWHERE, PARTNER, SUBJECT, X, Y, change};

// The places of both arrays, and how many are in use.
#[derive(Clone, Copy)]
struct Places(usize, usize, u32);

const TEN: Places = Places(10, 10, USED);

// The records that meet.
#[derive(Clone, Copy)]
struct Pair(u32, u32);

const BOTH: Pair = Pair(0, 2);

// From (0,0) to (4,0), a part of it, and one that crosses it at (2,0).
const LEVEL: Segment = Segment(ZERO, ZERO, FOUR, ZERO);

const WITHIN: Segment = Segment(ONE, ZERO, THREE, ZERO);

const RISING: Segment = Segment(ZERO, MINUS_ONE, FOUR, ONE);

// The entry on the first places of both arrays.
fn lend(
    rt: &impl Print,
    points: &mut [[u64; 2]],
    marks: &mut [[u32; 12]],
    places: Places,
    pair: Pair,
) -> io::Result<()> {
    let n = places.0;
    let m = places.1;
    if n <= points.len() && m <= marks.len() {
        told::neighbours(
            rt,
            possible_intersection(
                &mut points[..n],
                &mut marks[..m],
                places.2,
                pair.0,
                pair.1,
                PLAIN,
            ),
        )?;
    }
    Ok(())
}

fn case(
    rt: &impl Print,
    label: &str,
    places: Places,
    pair: Pair,
    a: Segment,
    b: Segment,
    c: At,
) -> io::Result<()> {
    let mut points = pools::points();
    let mut marks = pools::marks();
    pools::place(&mut points, 0, 1, a);
    pools::place(&mut points, 2, 3, b);
    change(&mut points, &mut marks, c);
    let kept_points = points;
    let kept_marks = marks;
    print!(rt; "{label}: ")?;
    lend(rt, &mut points, &mut marks, places, pair)?;
    told::changes(rt, &points, &marks, &kept_points, &kept_marks)
}

fn meet(rt: &impl Print, label: &str, a: Segment, b: Segment) -> io::Result<()> {
    case(rt, label, TEN, BOTH, a, b, NOWHERE)
}

// The places, of which six are in use.
fn roomy(rt: &impl Print, label: &str, n: usize, a: Segment, b: Segment) -> io::Result<()> {
    case(rt, label, Places(n, n, USED), BOTH, a, b, NOWHERE)
}

// The records, and a change.
fn named(rt: &impl Print, label: &str, a: u32, b: u32, c: At) -> io::Result<()> {
    case(rt, label, TEN, Pair(a, b), LEVEL, RISING, c)
}

// Without the checks, which refuse such coordinates by 2.
fn unchecked(rt: &impl Print, label: &str, a: u32, b: u32, mode: u32) -> io::Result<()> {
    let mut points = pools::points();
    let mut marks = pools::marks();
    pools::place(&mut points, 0, 1, Segment(MINUS_HUGE, ZERO, HUGE, ZERO));
    pools::place(&mut points, 2, 3, Segment(ZERO, MINUS_ONE, ZERO, ONE));
    let kept_points = points;
    let kept_marks = marks;
    print!(rt; "{label}: ")?;
    told::neighbours(
        rt,
        neighbours::possible_intersection(&mut points, &mut marks, USED, a, b, mode),
    )?;
    told::changes(rt, &points, &marks, &kept_points, &kept_marks)
}

// Codes 0 and 1.
pub fn done(rt: &impl Print) -> io::Result<()> {
    meet(rt, "apart", LEVEL, Segment(ZERO, ONE, FOUR, ONE))?;
    meet(rt, "one left end", LEVEL, Segment(ZERO, ZERO, FOUR, ONE))?;
    meet(rt, "one right end", LEVEL, Segment(ZERO, ONE, FOUR, ZERO))?;
    meet(rt, "crossing", LEVEL, RISING)?;
    meet(rt, "b begins on a", LEVEL, Segment(TWO, ZERO, FOUR, ONE))?;
    meet(
        rt,
        "a ends on b",
        LEVEL,
        Segment(FOUR, MINUS_ONE, FOUR, ONE),
    )?;
    meet(
        rt,
        "crossing, the cut moved for a alone",
        Segment(ZERO, ONE, LEAST, MINUS_ONE),
        Segment(MINUS_ONE, ZERO, ONE, ZERO),
    )?;
    named(rt, "a and itself", 0, 0, NOWHERE)?;
    Ok(())
}

// Codes 2 and 3, and 0 within one layer.
pub fn overlapping(rt: &impl Print) -> io::Result<()> {
    meet(rt, "equal", LEVEL, LEVEL)?;
    case(
        rt,
        "equal, with opposite flags",
        TEN,
        BOTH,
        LEVEL,
        LEVEL,
        At(2, IN_OUT, 0),
    )?;
    case(
        rt,
        "equal, of one layer",
        TEN,
        BOTH,
        LEVEL,
        LEVEL,
        At(2, SUBJECT, 1),
    )?;
    meet(
        rt,
        "overlapping from one left end, a longer",
        LEVEL,
        Segment(ZERO, ZERO, TWO, ZERO),
    )?;
    meet(
        rt,
        "overlapping to one right end, a longer",
        LEVEL,
        Segment(TWO, ZERO, FOUR, ZERO),
    )?;
    meet(
        rt,
        "a begins and ends first",
        LEVEL,
        Segment(TWO, ZERO, FIVE, ZERO),
    )?;
    meet(rt, "a includes b", LEVEL, WITHIN)?;
    meet(rt, "b includes a", WITHIN, LEVEL)?;
    Ok(())
}

// Refusals 6 and 7.
pub fn stopped(rt: &impl Print) -> io::Result<()> {
    roomy(rt, "crossing, no room for a", 7, LEVEL, RISING)?;
    roomy(rt, "crossing, no room for b", 9, LEVEL, RISING)?;
    roomy(rt, "a includes b, room for one division", 9, LEVEL, WITHIN)?;
    roomy(
        rt,
        "edge types set, no room to divide",
        7,
        LEVEL,
        Segment(ZERO, ZERO, TWO, ZERO),
    )?;
    meet(
        rt,
        "the second cut moved out of b",
        Segment(ZERO, THREE_TINY, TINY, ZERO),
        Segment(TINY, TINY, TINY, TWO_TINY),
    )?;
    unchecked(rt, "lost", 0, 2, PLAIN)?;
    unchecked(rt, "lost, the other way round", 2, 0, PLAIN)?;
    unchecked(rt, "lost, ordered", 0, 2, ORDERED)?;
    unchecked(rt, "lost, ordered, the other way round", 2, 0, ORDERED)?;
    Ok(())
}

// The places of both arrays, and how many are in use.
fn sized(rt: &impl Print, label: &str, n: usize, m: usize, used: u32) -> io::Result<()> {
    case(rt, label, Places(n, m, used), BOTH, LEVEL, RISING, NOWHERE)
}

// Refusals 1, 2 and 4.
pub fn checked(rt: &impl Print) -> io::Result<()> {
    sized(rt, "4,097 places", 4097, 4097, USED)?;
    sized(rt, "marks shorter", 10, 9, USED)?;
    sized(rt, "points shorter", 9, 10, USED)?;
    sized(rt, "eleven of ten places in use", 10, 10, 11)?;
    sized(rt, "none in use", 10, 10, 0)?;
    sized(rt, "the edge below both not in use", 10, 10, 4)?;
    named(rt, "a place not in use", 0, 6, NOWHERE)?;
    named(rt, "a number outside", 10, 2, NOWHERE)?;
    named(rt, "a right", 1, 2, NOWHERE)?;
    named(rt, "b right", 0, 3, NOWHERE)?;
    named(rt, "a right, b not a number", 1, 2, At(2, X, SIGNALLING))?;
    named(rt, "not a number at a's partner", 0, 2, At(1, X, NEGATIVE))?;
    named(rt, "above 2^100 at b's partner", 0, 2, At(3, Y, ABOVE))?;
    named(rt, "a's partner another's", 0, 2, At(1, PARTNER, 3))?;
    named(rt, "b's partner another's", 0, 2, At(3, PARTNER, 0))?;
    named(rt, "b's partner left", 0, 2, At(3, LEFT, 1))?;
    named(rt, "below b a right record", 0, 2, At(2, BELOW, 5))?;
    named(
        rt,
        "coordinates of a lost crossing",
        0,
        2,
        At(0, X, MINUS_HUGE),
    )?;
    Ok(())
}
