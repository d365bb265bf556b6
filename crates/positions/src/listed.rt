// The result events of a list as it has them, and whether each is before the next, so that they need no sort.
ghost use Rattle.std.specs.Prelude.{◌≡◌, ◌<◌, ◌≤◌, length, take};
ghost use Rattle.events.specs.Pool.{pool};
ghost use Rattle.positions.specs.Steps.{earlier_in, is_sorted, Appended, Copied};

use order::before_at;
use results::in_result;

// One more record of the list: behind the others if it is a result event, and the count.
fn append(points: &[[u64; 2]], marks: &[[u32; 12]], order: &mut [u32], n: usize, r: u32) -> usize
    requires { n < length order.old }
    ensures { Appended (pool points.now marks.now) order.old n r order.new result }
{
    if in_result(points, marks, r) {
        order[n] = r;
        return n + 1;
    }
    n
}

// The result events in front of order, and how many they are.
pub fn copy_results(
    points: &[[u64; 2]],
    marks: &[[u32; 12]],
    list: &[u32],
    order: &mut [u32],
) -> usize
    requires { length list.now ≤ length order.old }
    ensures { Copied (pool points.now marks.now) list.now order.old order.new result }
{
    let mut n = 0;
    for &r in list {
        n = append(points, marks, order, n, r);
    }
    n
}

// Each of the first n of order is before the next.
pub fn is_sorted(points: &[[u64; 2]], marks: &[[u32; 12]], order: &[u32], n: usize) -> bool
    requires { n ≤ length order.now }
    ensures { result ≡ is_sorted (earlier_in (pool points.now marks.now)) (take n order.now) }
{
    order[..n].is_sorted_by(|a, b| before_at(points, marks, *a, *b))
}
