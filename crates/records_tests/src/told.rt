// What each entry tells, written.
use class::Operation;
use crossing::PLAIN;
use std::cmp::Ordering;
use std::io;

fn before(
    rt: &impl Print,
    points: &[[u64; 2]],
    marks: &[[u32; 12]],
    a: u32,
    b: u32,
) -> io::Result<()> {
    rt.print(" before ")?;
    match records::is_before(points, marks, a, b) {
        Err(refusal) => print!(rt; "{refusal}"),
        Ok(is_before) => {
            if is_before {
                rt.print("yes")
            } else {
                rt.print("no")
            }
        }
    }
}

fn segments(
    rt: &impl Print,
    points: &[[u64; 2]],
    marks: &[[u32; 12]],
    a: u32,
    b: u32,
) -> io::Result<()> {
    rt.print(", segments ")?;
    match records::compare_segments(points, marks, a, b, PLAIN) {
        Err(refusal) => print!(rt; "{refusal}"),
        Ok(order) => match order {
            Ordering::Less => rt.print("less"),
            Ordering::Equal => rt.print("equal"),
            Ordering::Greater => rt.print("greater"),
        },
    }
}

fn fields(
    rt: &impl Print,
    points: &mut [[u64; 2]],
    marks: &mut [[u32; 12]],
    e: u32,
    lower: Option<u32>,
) -> io::Result<()> {
    rt.print(" fields ")?;
    match records::compute_fields(points, marks, e, lower, Operation::Union) {
        Err(refusal) => print!(rt; "{refusal}"),
        Ok(()) => rt.print("done"),
    }
}

// All three of records a and b, or the class of a above nothing.
pub fn entries(
    rt: &impl Print,
    points: &mut [[u64; 2]],
    marks: &mut [[u32; 12]],
    a: u32,
    b: Option<u32>,
) -> io::Result<()> {
    if let Some(n) = b {
        before(rt, points, marks, a, n)?;
        segments(rt, points, marks, a, n)?;
        rt.print(",")?;
    }
    fields(rt, points, marks, a, b)
}
