// LX LY RX RY S C: a left record and its partner, read and stored as records i and j.
use crate::pairs::Edge;
use crate::{pairs, words};
use numbers::Point;

pub fn record(
    line: &[u8],
    from: usize,
    points: &mut [[u64; 2]],
    marks: &mut [[u32; 12]],
    i: u32,
    j: u32,
) -> usize {
    let mut n = [0; 4];
    let mut subject = [false; 1];
    let at = words::numbers(line, from, &mut n);
    let at = words::flags(line, at, &mut subject);
    let ring = words::ring(line, at);
    let e = Edge {
        from: Point { x: n[0], y: n[1] },
        to: Point { x: n[2], y: n[3] },
        left: true,
        subject: subject[0],
        ring: ring.number,
    };
    pairs::store(points, marks, i, j, e);
    ring.after
}
