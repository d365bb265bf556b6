// before PX PY QX QY L S  PX PY QX QY L S: two flags, first before second and second before first. The first event is record 0, the second 2.
use crate::pairs::Edge;
use crate::{answers, pairs, words};
use numbers::Point;
use records::is_before;
use refusals::Refusal;

fn event(
    line: &[u8],
    from: usize,
    points: &mut [[u64; 2]],
    marks: &mut [[u32; 12]],
    i: u32,
    j: u32,
) -> usize {
    let mut n = [0; 4];
    let mut flags = [false; 2];
    let at = words::numbers(line, from, &mut n);
    let after = words::flags(line, at, &mut flags);
    let e = Edge {
        from: Point { x: n[0], y: n[1] },
        to: Point { x: n[2], y: n[3] },
        left: flags[0],
        subject: flags[1],
        ring: 0,
    };
    pairs::store(points, marks, i, j, e);
    after
}

fn second(out: &mut [u8], from: usize, first: bool, told: Result<bool, Refusal>) -> usize {
    match told {
        Err(refusal) => answers::refused(out, from, refusal),
        Ok(other) => {
            let at = answers::flag(out, from, first);
            let at = answers::word(out, at, b" ");
            answers::flag(out, at, other)
        }
    }
}

pub fn answer(line: &[u8], from: usize, out: &mut [u8], at: usize) -> usize {
    let mut points = [[0u64; 2]; 4];
    let mut marks = [[0u32; 12]; 4];
    let next = event(line, from, &mut points, &mut marks, 0, 1);
    if event(line, next, &mut points, &mut marks, 2, 3) != line.len() {
        return answers::malformed(out, at);
    }
    match is_before(&points, &marks, 0, 2) {
        Err(refusal) => answers::refused(out, at, refusal),
        Ok(first) => second(out, at, first, is_before(&points, &marks, 2, 0)),
    }
}
