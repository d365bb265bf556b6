// divide LX LY RX RY CX CY S C: r X Y L l X Y L old L, the new right end, the new left end and the old right end's flag. The segment is records
// 0 and 1 of a pool that has room for two more.
use crate::pairs::Edge;
use crate::{answers, pairs, words};
use division::Divided;
use events::Event;
use events::pool::read_event;
use numbers::Point;
use records::dividing::divide_segment;

const USED: u32 = 2;

fn new_ends(out: &mut [u8], from: usize, right: Event, left: Event) -> usize {
    let at = answers::word(out, from, b"r");
    let at = answers::end(out, at, right);
    let at = answers::word(out, at, b" l");
    answers::end(out, at, left)
}

fn told(
    points: &[[u64; 2]],
    marks: &[[u32; 12]],
    d: Divided,
    out: &mut [u8],
    from: usize,
) -> usize {
    let right = read_event(points, marks, d.right);
    let left = read_event(points, marks, d.left);
    let at = new_ends(out, from, right, left);
    let at = answers::word(out, at, b" old ");
    answers::flag(out, at, read_event(points, marks, 1).left)
}

fn divided(
    points: &mut [[u64; 2]],
    marks: &mut [[u32; 12]],
    cut: Point,
    out: &mut [u8],
    at: usize,
) -> usize {
    match divide_segment(points, marks, USED, 0, cut) {
        Err(refusal) => answers::refused(out, at, refusal),
        Ok(d) => told(points, marks, d, out, at),
    }
}

pub fn answer(line: &[u8], from: usize, out: &mut [u8], at: usize) -> usize {
    let mut points = [[0u64; 2]; 4];
    let mut marks = [[0u32; 12]; 4];
    let mut n = [0; 6];
    let mut subject = [false; 1];
    let next = words::numbers(line, from, &mut n);
    let next = words::flags(line, next, &mut subject);
    let ring = words::ring(line, next);
    if ring.after != line.len() {
        return answers::malformed(out, at);
    }
    let e = Edge {
        from: Point { x: n[0], y: n[1] },
        to: Point { x: n[2], y: n[3] },
        left: true,
        subject: subject[0],
        ring: ring.number,
    };
    pairs::store(&mut points, &mut marks, 0, 1, e);
    divided(&mut points, &mut marks, Point { x: n[4], y: n[5] }, out, at)
}
