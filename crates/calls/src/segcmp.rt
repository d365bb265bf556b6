// segcmp LX LY RX RY S C  LX LY RX RY S C: less, equal or greater; `same` for the second is the first again. The first is record 0, the second 2.
// ordered-segcmp: the same with the crossing in the ordered mode.
use crate::{answers, left, words};
use records::compare_segments;
use refusals::Refusal;
use std::cmp::Ordering;

fn told(out: &mut [u8], at: usize, compared: Result<Ordering, Refusal>) -> usize {
    match compared {
        Err(refusal) => answers::refused(out, at, refusal),
        Ok(order) => match order {
            Ordering::Less => answers::word(out, at, b"less"),
            Ordering::Equal => answers::word(out, at, b"equal"),
            Ordering::Greater => answers::word(out, at, b"greater"),
        },
    }
}

pub fn answer(line: &[u8], from: usize, mode: u32, out: &mut [u8], at: usize) -> usize {
    let mut points = [[0u64; 2]; 4];
    let mut marks = [[0u32; 12]; 4];
    let next = left::record(line, from, &mut points, &mut marks, 0, 1);
    if words::passed(line, next, b" same") == line.len() {
        return told(out, at, compare_segments(&points, &marks, 0, 0, mode));
    }
    if left::record(line, next, &mut points, &mut marks, 2, 3) == line.len() {
        return told(out, at, compare_segments(&points, &marks, 0, 2, mode));
    }
    answers::malformed(out, at)
}
