// The two segments as pieces of lines: where the lines cross, or what part of one line they share.
ghost use Rattle.std.specs.Prelude.{◌≡◌};
ghost use Rattle.crossing.specs.Lines.{cross_product, dot_product, mid_point, minus, outside, at_end, crossing_at, shared_from, intersection_impl};

use crate::LineIntersection;
use numbers::{Coordinate, max, min};

fn cross_product(a: Coordinate, b: Coordinate) -> f64
    ensures { result ≡ cross_product a b }
{
    a.x * b.y - a.y * b.x
}

fn dot_product(a: Coordinate, b: Coordinate) -> f64
    ensures { result ≡ dot_product a b }
{
    a.x * b.x + a.y * b.y
}

fn mid_point(p: Coordinate, s: f64, d: Coordinate) -> Coordinate
    ensures { result ≡ mid_point p s d }
{
    Coordinate {
        x: p.x + s * d.x,
        y: p.y + s * d.y,
    }
}

fn difference(p: Coordinate, q: Coordinate) -> Coordinate
    ensures { result ≡ minus p q }
{
    Coordinate {
        x: p.x - q.x,
        y: p.y - q.y,
    }
}

fn is_outside(s: f64) -> bool
    ensures { result ≡ outside s }
{
    s < 0.0 || s > 1.0
}

fn is_at_end(s: f64) -> bool
    ensures { result ≡ at_end s }
{
    s == 0.0 || s == 1.0
}

// The lines cross at s along the first segment and at t along the second.
fn crossing_at(
    a1: Coordinate,
    va: Coordinate,
    s: f64,
    b1: Coordinate,
    vb: Coordinate,
    t: f64,
) -> LineIntersection
    ensures { result ≡ crossing_at a1 va s b1 vb t }
{
    if is_outside(s) {
        return LineIntersection::None;
    }
    if is_outside(t) {
        return LineIntersection::None;
    }
    // An end is met exactly: the segment that ends there gives the point.
    if is_at_end(s) {
        return LineIntersection::Point(mid_point(a1, s, va));
    }
    if is_at_end(t) {
        return LineIntersection::Point(mid_point(b1, t, vb));
    }
    LineIntersection::Point(mid_point(a1, s, va))
}

// One line: the second segment runs from smin to smax along the first.
fn shared_from(a1: Coordinate, va: Coordinate, smin: f64, smax: f64) -> LineIntersection
    ensures { result ≡ shared_from a1 va smin smax }
{
    if smin <= 1.0 && smax >= 0.0 {
        if smin == 1.0 {
            return LineIntersection::Point(mid_point(a1, smin, va));
        }
        if smax == 0.0 {
            return LineIntersection::Point(mid_point(a1, smax, va));
        }
        return LineIntersection::Overlap(
            mid_point(a1, max(smin, 0.0), va),
            mid_point(a1, min(smax, 1.0), va),
        );
    }
    LineIntersection::None
}

pub fn intersection_impl(
    a1: Coordinate,
    a2: Coordinate,
    b1: Coordinate,
    b2: Coordinate,
) -> LineIntersection
    ensures { result ≡ intersection_impl a1 a2 b1 b2 }
{
    let va = difference(a2, a1);
    let vb = difference(b2, b1);
    let e = difference(b1, a1);
    let kross = cross_product(va, vb);
    let kross_e = cross_product(e, va);
    if kross * kross > 0.0 {
        let s = cross_product(e, vb) / kross;
        return crossing_at(a1, va, s, b1, vb, kross_e / kross);
    }
    if kross_e * kross_e > 0.0 {
        return LineIntersection::None;
    }
    let sqr_len_a = dot_product(va, va);
    let sa = dot_product(va, e) / sqr_len_a;
    let sb = sa + dot_product(va, vb) / sqr_len_a;
    shared_from(a1, va, min(sa, sb), max(sa, sb))
}
