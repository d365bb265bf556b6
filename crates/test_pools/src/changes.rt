// Changes of single numbers in a pool.
ghost use Rattle.std.specs.Prelude.{◌≡◌};
ghost use Rattle.test_pools.specs.Changes.{with_number, with_coordinate, marks_after, points_after};

// One place more than a pool may have.
pub const PLACES: usize = 4097;

// The numbers of a record's marks that are changed here, and after them its coordinates.
pub const LEFT: usize = 0;

pub const SUBJECT: usize = 1;

pub const PARTNER: usize = 3;

pub const LINKED: usize = 4;

pub const BELOW: usize = 5;

pub const IN_OUT: usize = 8;

const MARKS: usize = 12;

pub const X: usize = 12;

pub const Y: usize = 13;

// One number of one record, changed: the record, the field, and the mark or the bits of the coordinate.
#[derive(Clone, Copy)]
pub struct At(pub usize, pub usize, pub u64);

// No record has it.
pub const NOWHERE: At = At(PLACES, X, 0);

#[tactic(auto, unfolding(crate::specs::Changes::with_number))]
fn set_mark(marks: &mut [[u32; 12]], row: usize, field: usize, value: u32)
    ensures { marks.new ≡ with_number marks.old 12 row field value }
{
    if row < marks.len() && field < MARKS {
        marks[row][field] = value;
    }
}

#[tactic(auto, unfolding(crate::specs::Changes::with_coordinate, crate::specs::Changes::with_number))]
pub fn set_coordinate(points: &mut [[u64; 2]], row: usize, field: usize, value: u64)
    ensures { points.new ≡ with_coordinate points.old row field value }
{
    if row < points.len() && field < 2 {
        points[row][field] = value;
    }
}

#[tactic(auto, unfolding(crate::specs::Changes::marks_after, crate::specs::Changes::points_after, crate::specs::Changes::with_mark))]
pub fn change(points: &mut [[u64; 2]], marks: &mut [[u32; 12]], c: At)
    ensures points_after { points.new ≡ points_after points.old c.0 c.1 c.2 }
    ensures marks_after { marks.new ≡ marks_after marks.old c.0 c.1 c.2 }
{
    let At(row, field, value) = c;
    if field < MARKS {
        set_mark(marks, row, field, (value % 0x1_0000_0000) as u32);
    } else {
        set_coordinate(points, row, field - MARKS, value);
    }
}
