// Division: the segment of records 0 and 1 is cut, in a pool of eight places where a case does not say otherwise.
use crate::pools::{Segment, USED};
use crate::{pools, told};
use numbers::Point;
use records::dividing::divide_segment;
use std::io;
use test_pools::bits::*;
use test_pools::changes::{At, BELOW, LEFT, NOWHERE, PARTNER, X, Y, change};

// The places of both arrays.
#[derive(Clone, Copy)]
struct Places(usize, usize);

const EIGHT: Places = Places(8, 8);

// The bits of x and y.
#[derive(Clone, Copy)]
struct Cut(u64, u64);

// From (0,0) to (4,0).
const LEVEL: Segment = Segment(ZERO, ZERO, FOUR, ZERO);

const MIDDLE: Cut = Cut(TWO, ZERO);

// The entry on the first places of both arrays.
fn lend(
    rt: &impl Print,
    points: &mut [[u64; 2]],
    marks: &mut [[u32; 12]],
    places: Places,
    used: u32,
    i: u32,
    cut: Point,
) -> io::Result<()> {
    let n = places.0;
    let m = places.1;
    if n <= points.len() && m <= marks.len() {
        told::division(
            rt,
            divide_segment(&mut points[..n], &mut marks[..m], used, i, cut),
        )?;
    }
    Ok(())
}

fn case(
    rt: &impl Print,
    label: &str,
    places: Places,
    used: u32,
    i: u32,
    s: Segment,
    cut: Cut,
    c: At,
) -> io::Result<()> {
    let mut points = pools::points();
    let mut marks = pools::marks();
    pools::place(&mut points, 0, 1, s);
    change(&mut points, &mut marks, c);
    let kept_points = points;
    let kept_marks = marks;
    let at = Point { x: cut.0, y: cut.1 };
    print!(rt; "{label}: ")?;
    lend(rt, &mut points, &mut marks, places, used, i, at)?;
    told::changes(rt, &points, &marks, &kept_points, &kept_marks)
}

// The segment and the cut.
fn divided(rt: &impl Print, label: &str, s: Segment, at: Cut) -> io::Result<()> {
    case(rt, label, EIGHT, USED, 0, s, at, NOWHERE)
}

// The places, and how many of them are in use.
fn sized(rt: &impl Print, label: &str, n: usize, m: usize, used: u32, at: Cut) -> io::Result<()> {
    case(rt, label, Places(n, m), used, 0, LEVEL, at, NOWHERE)
}

// The record to be divided, and a change.
fn named(rt: &impl Print, label: &str, i: u32, used: u32, c: At) -> io::Result<()> {
    case(rt, label, EIGHT, used, i, LEVEL, MIDDLE, c)
}

pub fn done(rt: &impl Print) -> io::Result<()> {
    divided(rt, "in the middle", LEVEL, MIDDLE)?;
    divided(rt, "y beyond both ends", LEVEL, Cut(TWO, FIVE))?;
    divided(rt, "y 2^100", LEVEL, Cut(TWO, LIMIT))?;
    divided(rt, "P10", Segment(ZERO, ONE, FOUR, ZERO), Cut(ZERO, HALF))?;
    divided(
        rt,
        "P11",
        Segment(ZERO, ZERO, TWO, ONE),
        Cut(TWO, ONE_AND_HALF),
    )?;
    divided(
        rt,
        "moved, and after the right end",
        Segment(ZERO, ONE, LEAST, ZERO),
        Cut(ZERO, HALF),
    )?;
    case(
        rt,
        "another edge",
        EIGHT,
        USED,
        2,
        LEVEL,
        Cut(THREE, ONE),
        NOWHERE,
    )?;
    Ok(())
}

// Refusal 7.
pub fn missed(rt: &impl Print) -> io::Result<()> {
    named(rt, "a right record", 1, USED, NOWHERE)?;
    divided(rt, "at the left end", LEVEL, Cut(ZERO, ZERO))?;
    divided(rt, "at the left end by value", LEVEL, Cut(MINUS_ZERO, ZERO))?;
    divided(rt, "at the right end", LEVEL, Cut(FOUR, ZERO))?;
    divided(
        rt,
        "moved to the right end",
        Segment(ZERO, ONE, LEAST, ZERO),
        Cut(ZERO, ZERO),
    )?;
    divided(rt, "left of it", LEVEL, Cut(MINUS_ONE, ZERO))?;
    divided(rt, "right of it", LEVEL, Cut(FIVE, ZERO))?;
    divided(
        rt,
        "moved to the right of it",
        Segment(ZERO, ZERO, ZERO, ONE),
        Cut(ZERO, MINUS_ONE),
    )?;
    divided(
        rt,
        "x not a number",
        Segment(ZERO, ONE, FOUR, ZERO),
        Cut(NEGATIVE, ZERO),
    )?;
    divided(rt, "y not a number", LEVEL, Cut(TWO, SIGNALLING))?;
    divided(rt, "y infinite", LEVEL, Cut(TWO, INFINITY))?;
    divided(rt, "y above 2^100", LEVEL, Cut(TWO, ABOVE))?;
    divided(
        rt,
        "moved above 2^100",
        Segment(LIMIT, ZERO, LIMIT, ONE),
        Cut(LIMIT, MINUS_ONE),
    )?;
    Ok(())
}

// Refusal 6, and 7 before it.
pub fn no_room(rt: &impl Print) -> io::Result<()> {
    sized(rt, "one place free", 7, 7, USED, MIDDLE)?;
    sized(rt, "no place free", 6, 6, USED, MIDDLE)?;
    sized(rt, "eight of eight places in use", 8, 8, 8, MIDDLE)?;
    sized(rt, "4,096 of 4,096 places in use", 4096, 4096, 4096, MIDDLE)?;
    sized(rt, "4,094 of 4,096 places in use", 4096, 4096, 4094, MIDDLE)?;
    sized(
        rt,
        "no place free, at the right end",
        6,
        6,
        USED,
        Cut(FOUR, ZERO),
    )?;
    case(
        rt,
        "no place free, a right record",
        Places(6, 6),
        USED,
        1,
        LEVEL,
        MIDDLE,
        NOWHERE,
    )?;
    Ok(())
}

// Refusals 1, 2 and 4.
pub fn checked(rt: &impl Print) -> io::Result<()> {
    sized(rt, "4,097 places", 4097, 4097, USED, MIDDLE)?;
    sized(rt, "marks shorter", 8, 7, USED, MIDDLE)?;
    sized(rt, "points shorter", 7, 8, USED, MIDDLE)?;
    sized(rt, "nine of eight places in use", 8, 8, 9, MIDDLE)?;
    sized(rt, "the most in use", 8, 8, 0xffff_ffff, MIDDLE)?;
    sized(
        rt,
        "nine of eight in use, at the left end",
        8,
        8,
        9,
        Cut(ZERO, ZERO),
    )?;
    sized(rt, "none in use", 8, 8, 0, MIDDLE)?;
    named(rt, "its partner not in use", 0, 1, NOWHERE)?;
    named(rt, "the edge below it not in use", 0, 4, NOWHERE)?;
    named(rt, "a place not in use", 6, USED, NOWHERE)?;
    named(rt, "a number outside", 8, USED, NOWHERE)?;
    named(rt, "not a number at it", 0, USED, At(0, X, SIGNALLING))?;
    named(rt, "above 2^100 at its partner", 0, USED, At(1, Y, ABOVE))?;
    named(
        rt,
        "not a number at a right record's partner",
        1,
        USED,
        At(0, Y, NEGATIVE),
    )?;
    named(rt, "its partner another's", 0, USED, At(1, PARTNER, 2))?;
    named(
        rt,
        "a right record, its partner another's",
        1,
        USED,
        At(0, PARTNER, 3),
    )?;
    named(rt, "its partner left", 0, USED, At(1, LEFT, 1))?;
    named(rt, "its partner earlier", 0, USED, At(1, X, MINUS_ONE))?;
    named(rt, "below it a right record", 0, USED, At(0, BELOW, 5))?;
    named(rt, "not a number elsewhere", 0, USED, At(2, X, QUIET))?;
    Ok(())
}
