// The cases. Where a case does not say otherwise, the pool has six places, a is record 0 and b record 2; 1 and 3 are their partners.
use crate::{pools, told};
use std::io;
use test_pools::bits::*;
use test_pools::changes::{At, BELOW, LEFT, LINKED, NOWHERE, PARTNER, X, Y, change};

const LAST: u32 = 0xffff_ffff;

const MOST: u64 = 0xffff_ffff;

// The entries on the first places of both arrays.
fn lend(
    rt: &impl Print,
    points: &mut [[u64; 2]],
    marks: &mut [[u32; 12]],
    n: usize,
    m: usize,
    a: u32,
    b: Option<u32>,
) -> io::Result<()> {
    if n <= points.len() && m <= marks.len() {
        told::entries(rt, &mut points[..n], &mut marks[..m], a, b)?;
    }
    Ok(())
}

fn case(
    rt: &impl Print,
    label: &str,
    n: usize,
    m: usize,
    first: At,
    second: At,
    a: u32,
    b: Option<u32>,
) -> io::Result<()> {
    let mut points = pools::points();
    let mut marks = pools::marks();
    change(&mut points, &mut marks, first);
    change(&mut points, &mut marks, second);
    let kept_points = points;
    let kept_marks = marks;
    print!(rt; "{label}:")?;
    lend(rt, &mut points, &mut marks, n, m, a, b)?;
    if points == kept_points && marks == kept_marks {
        rt.print(", as lent\n")
    } else {
        rt.print(", changed\n")
    }
}

// The places of both arrays.
fn sized(rt: &impl Print, label: &str, n: usize, m: usize, first: At) -> io::Result<()> {
    case(rt, label, n, m, first, NOWHERE, 0, Some(2))
}

fn changed(rt: &impl Print, label: &str, first: At, second: At) -> io::Result<()> {
    case(rt, label, 6, 6, first, second, 0, Some(2))
}

fn named(rt: &impl Print, label: &str, a: u32, b: u32, first: At, second: At) -> io::Result<()> {
    case(rt, label, 6, 6, first, second, a, Some(b))
}

// Refusals 1 and 2.
pub fn sizes_and_coordinates(rt: &impl Print) -> io::Result<()> {
    sized(rt, "nothing wrong", 6, 6, NOWHERE)?;
    sized(rt, "4,096 places", 4096, 4096, NOWHERE)?;
    sized(rt, "4,097 places", 4097, 4097, NOWHERE)?;
    sized(rt, "marks shorter", 6, 5, NOWHERE)?;
    sized(rt, "points shorter", 5, 6, NOWHERE)?;
    sized(
        rt,
        "marks shorter, not a number at a",
        6,
        5,
        At(0, X, NEGATIVE),
    )?;
    sized(rt, "no places", 0, 0, NOWHERE)?;
    changed(rt, "not a number at a", At(0, X, QUIET), NOWHERE)?;
    changed(rt, "infinite at a's partner", At(1, Y, INFINITY), NOWHERE)?;
    changed(rt, "minus infinite at b", At(2, X, MINUS_INFINITY), NOWHERE)?;
    changed(rt, "above 2^100 at b's partner", At(3, Y, ABOVE), NOWHERE)?;
    changed(rt, "below -2^100 at a", At(0, X, MINUS_ABOVE), NOWHERE)?;
    changed(
        rt,
        "-2^100 and 2^100",
        At(0, X, MINUS_LIMIT),
        At(1, X, LIMIT),
    )?;
    changed(rt, "not a number at neither", At(4, X, SIGNALLING), NOWHERE)?;
    Ok(())
}

// Refusal 4, whatever is wanted.
pub fn mistakes(rt: &impl Print) -> io::Result<()> {
    named(rt, "a outside", 6, 2, NOWHERE, NOWHERE)?;
    named(rt, "b outside", 0, 6, NOWHERE, NOWHERE)?;
    named(rt, "a the largest number", LAST, 2, NOWHERE, NOWHERE)?;
    named(rt, "a twice", 0, 0, NOWHERE, NOWHERE)?;
    changed(rt, "a's partner another's", At(0, PARTNER, 3), NOWHERE)?;
    changed(
        rt,
        "b's partner with another partner",
        At(3, PARTNER, 0),
        NOWHERE,
    )?;
    changed(rt, "a's partner outside", At(0, PARTNER, 6), NOWHERE)?;
    changed(
        rt,
        "b's partner the largest number",
        At(2, PARTNER, MOST),
        NOWHERE,
    )?;
    changed(rt, "b its own partner", At(2, PARTNER, 2), NOWHERE)?;
    changed(rt, "a and its partner left", At(1, LEFT, 1), NOWHERE)?;
    changed(rt, "b and its partner right", At(2, LEFT, 0), NOWHERE)?;
    changed(rt, "a at its partner's point", At(1, X, ZERO), NOWHERE)?;
    changed(rt, "the same by value", At(1, X, MINUS_ZERO), NOWHERE)?;
    changed(rt, "b after its partner by x", At(2, X, FIVE), NOWHERE)?;
    changed(
        rt,
        "a after its partner by y",
        At(0, X, FOUR),
        At(0, Y, ONE),
    )?;
    changed(
        rt,
        "a and its partner exchanged",
        At(0, LEFT, 0),
        At(1, LEFT, 1),
    )?;
    changed(rt, "below a outside", At(0, LINKED, 1), At(0, BELOW, 6))?;
    changed(
        rt,
        "below a a right record",
        At(0, LINKED, 1),
        At(0, BELOW, 5),
    )?;
    changed(rt, "below b outside", At(2, BELOW, 6), NOWHERE)?;
    changed(
        rt,
        "below b's partner a right record",
        At(3, LINKED, 1),
        At(3, BELOW, 1),
    )?;
    Ok(())
}

// A right record where a left one is wanted.
pub fn rights(rt: &impl Print) -> io::Result<()> {
    named(rt, "a right", 1, 2, NOWHERE, NOWHERE)?;
    named(rt, "b right", 0, 3, NOWHERE, NOWHERE)?;
    named(rt, "b the partner of a", 0, 1, NOWHERE, NOWHERE)?;
    named(
        rt,
        "a right, b's partner outside",
        1,
        2,
        At(2, PARTNER, 6),
        NOWHERE,
    )?;
    named(
        rt,
        "a's partner outside, b right",
        0,
        3,
        At(0, PARTNER, 6),
        NOWHERE,
    )?;
    named(
        rt,
        "below a's partner 3, b right",
        0,
        3,
        At(1, LINKED, 1),
        At(1, BELOW, 3),
    )?;
    named(
        rt,
        "a right, b's partner not a number",
        1,
        2,
        At(3, X, NEGATIVE),
        NOWHERE,
    )?;
    Ok(())
}

// Several mistakes at once: 2 before 4, and the first named of one number.
pub fn several(rt: &impl Print) -> io::Result<()> {
    changed(
        rt,
        "a's partner another's, b not a number",
        At(0, PARTNER, 3),
        At(2, X, SIGNALLING),
    )?;
    named(
        rt,
        "4 at both, a the higher",
        2,
        0,
        At(1, LEFT, 1),
        At(3, LEFT, 1),
    )?;
    named(
        rt,
        "2 at both, a the higher",
        2,
        0,
        At(0, X, QUIET),
        At(3, X, SIGNALLING),
    )?;
    Ok(())
}

fn alone(rt: &impl Print, label: &str, e: u32, first: At) -> io::Result<()> {
    case(rt, label, 6, 6, first, NOWHERE, e, None)
}

// The class of an edge above nothing.
pub fn above_nothing(rt: &impl Print) -> io::Result<()> {
    alone(rt, "alone, nothing wrong", 0, NOWHERE)?;
    alone(rt, "alone, outside", 6, NOWHERE)?;
    alone(rt, "alone, right", 1, NOWHERE)?;
    alone(
        rt,
        "alone, not a number at the partner",
        0,
        At(1, Y, NEGATIVE),
    )?;
    alone(rt, "alone, another's partner outside", 0, At(2, PARTNER, 6))?;
    Ok(())
}
