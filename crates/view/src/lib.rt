// One contour's points: a part of the lent points, shown and not copied.
#![tactic(auto)]

ghost use Rattle.std.specs.Prelude.{◌≡◌, length};
ghost use Rattle.view.specs.View.{corner_at, part_of};

use numbers::Point;

// Holds a contour's part.
#[derive(Clone, Copy)]
pub struct ContourView<'a> {
    pub points: &'a [[u64; 2]],
}

// The part from `first` up to `end`; one that is not within the points is shown empty.
#[tactic(auto, unfolding(crate::specs::View::part_of))]
pub fn part_of(points: &[[u64; 2]], first: usize, end: usize) -> &[[u64; 2]]
    ensures { result.now ≡ part_of points.now first end }
{
    points.get(first..end).unwrap_or(&points[..0])
}

pub fn count_of(points: &[[u64; 2]]) -> usize
    ensures { result ≡ length points.now }
{
    points.len()
}

// Beyond the part there is no corner.
pub fn corner_at(points: &[[u64; 2]], i: usize) -> Option<Point>
    ensures { result ≡ corner_at points.now i }
{
    if i < points.len() {
        let p = points[i];
        let q = Point { x: p[0], y: p[1] };
        return Some(q);
    }
    None
}

// Of a part as `part_of` gives it.
pub fn contour_view<'a>(points: &'a [[u64; 2]]) -> ContourView<'a>
    ensures { result.points ≡ points.entry }
{
    ContourView { points }
}

pub fn contour_len<'a>(v: ContourView<'a>) -> usize
    ensures { result ≡ length v.entry.points.now }
{
    count_of(v.points)
}

pub fn read_corner<'a>(v: ContourView<'a>, i: usize) -> Option<Point>
    ensures { result ≡ corner_at v.entry.points.now i }
{
    corner_at(v.points, i)
}

// For a caller that holds the part: its view, asked once.
pub fn count_shown(points: &[[u64; 2]]) -> usize
    ensures { result ≡ length points.now }
{
    contour_len(contour_view(points))
}

pub fn corner_shown(points: &[[u64; 2]], i: usize) -> Option<Point>
    ensures { result ≡ corner_at points.now i }
{
    read_corner(contour_view(points), i)
}
