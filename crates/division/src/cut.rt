// The cut: where it is moved, and where it divides nothing.
ghost use Rattle.std.specs.Prelude.{◌≡◌};
ghost use Rattle.events.specs.Binary64.{at_binary64};
ghost use Rattle.division.specs.Division as Spec;

use events::points::{is_unfit_point, less_x, less_y, next_x, same_point, same_x};
use numbers::Point;

// The cut is straight below the left end.
pub fn moves(left: Point, cut: Point) -> bool
    ensures { result ≡ Spec.moves at_binary64 left cut }
{
    if same_x(cut, left) {
        return less_y(cut, left);
    }
    false
}

// So that the first half does not run downwards, such a cut goes one step in x, for this segment alone.
pub fn moved(left: Point, cut: Point) -> Point
    ensures { result ≡ Spec.moved at_binary64 left cut }
{
    if moves(left, cut) {
        return next_x(cut);
    }
    cut
}

// The cut, after the move, is an end, lies outside in x, or is not fit.
pub fn misses(left: Point, right: Point, cut: Point) -> bool
    ensures { result ≡ Spec.misses at_binary64 left right cut }
{
    if same_point(cut, left) {
        return true;
    }
    if same_point(cut, right) {
        return true;
    }
    if less_x(cut, left) {
        return true;
    }
    if less_x(right, cut) {
        return true;
    }
    is_unfit_point(cut)
}
