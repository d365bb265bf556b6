// cross AX AY BX BY CX CY DX DY: none, point X Y, overlap X Y X Y or lost. ordered-cross: the same in the ordered mode.
use crate::{answers, words};
use crossing::{LineIntersection, crossing};
use numbers::Coordinate;
use numbers::words::{number, word};

fn coordinate(out: &mut [u8], from: usize, point: Coordinate) -> usize {
    let at = answers::number(out, from, word(point.x));
    answers::number(out, at, word(point.y))
}

fn overlap(out: &mut [u8], from: usize, p: Coordinate, q: Coordinate) -> usize {
    let at = answers::word(out, from, b"overlap");
    let at = coordinate(out, at, p);
    coordinate(out, at, q)
}

fn found(out: &mut [u8], from: usize, intersection: LineIntersection) -> usize {
    match intersection {
        LineIntersection::None => answers::word(out, from, b"none"),
        LineIntersection::Point(p) => {
            let at = answers::word(out, from, b"point");
            coordinate(out, at, p)
        }
        LineIntersection::Overlap(p, q) => overlap(out, from, p, q),
        LineIntersection::Lost => answers::word(out, from, b"lost"),
    }
}

pub fn answer(line: &[u8], from: usize, mode: u32, out: &mut [u8], at: usize) -> usize {
    let mut n = [0; 8];
    if words::numbers(line, from, &mut n) != line.len() {
        return answers::malformed(out, at);
    }
    match crossing(
        mode,
        number(n[0]),
        number(n[1]),
        number(n[2]),
        number(n[3]),
        number(n[4]),
        number(n[5]),
        number(n[6]),
        number(n[7]),
    ) {
        Err(refusal) => answers::refused(out, at, refusal),
        Ok(intersection) => found(out, at, intersection),
    }
}
