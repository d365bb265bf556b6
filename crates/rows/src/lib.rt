// The table of result events in two arrays that the caller lends: a row is one end of an edge, every link a position.
// A row is left (1 or another number), the other end's position, the position of the edge below + 1 or 0 for none, and whether that is OutIn (as left).
// Outside the table a read gives a right end at the point of a blank record, and a store changes nothing.
#![tactic(auto)]

ghost use Rattle.std.specs.Prelude.{◌≡◌, set};
ghost use Rattle.rows.specs.Rows.{lent, put, point_in, point_code, end_of, end_in, end_code};

use events::pool::number_of_flag;
use numbers::Point;

// What a row holds beside its point.
#[derive(Clone, Copy)]
pub struct End {
    pub left: bool,
    // The position of the edge's other end.
    pub other: u32,
    // The position of the edge below + 1; 0 where there is none.
    pub below: u32,
    // That edge is OutIn.
    pub out_in: bool,
}

pub fn point_at(at: &[[u64; 2]], i: usize) -> Point
    ensures { result ≡ point_in at.now i }
{
    if i < at.len() {
        let p = at[i];
        return Point { x: p[0], y: p[1] };
    }
    Point { x: 0, y: 0 }
}

fn end_of(row: [u32; 4]) -> End
    ensures { result ≡ end_of row }
{
    End {
        left: row[0] == 1,
        other: row[1],
        below: row[2],
        out_in: row[3] == 1,
    }
}

pub fn end_at(rows: &[[u32; 4]], i: usize) -> End
    ensures { result ≡ end_in rows.now i }
{
    if i < rows.len() {
        return end_of(rows[i]);
    }
    end_of([0, 0, 0, 0])
}

fn put_end(rows: &mut [[u32; 4]], i: usize, end: End)
    ensures { rows.new ≡ set rows.old i (end_code end) }
{
    let left = number_of_flag(end.left);
    let out_in = number_of_flag(end.out_in);
    if i < rows.len() {
        rows[i] = [left, end.other, end.below, out_in];
    }
}

pub fn put_point(at: &mut [[u64; 2]], i: usize, p: Point)
    ensures { at.new ≡ set at.old i (point_code p) }
{
    if i < at.len() {
        at[i] = [p.x, p.y];
    }
}

pub fn put_row(rows: &mut [[u32; 4]], at: &mut [[u64; 2]], i: usize, p: Point, end: End)
    ensures { lent rows.new at.new ≡ put (lent rows.old at.old) i p end }
{
    put_end(rows, i, end);
    put_point(at, i, p);
}
