// The operation's line, the first of the sheet.
ghost use Rattle.std.specs.Prelude.{◌≡◌};
ghost use Rattle.sheet.specs.Reading.{operation_of};
ghost use Rattle.sheet.specs.Shown.{shown_operation};

use class::Operation;
use text::words::{after, has_word};

pub fn read_operation(s: &[u8]) -> Option<(Operation, usize)>
    ensures { shown_operation s.now result ≡ operation_of s.now }
{
    if has_word(s, 0, b"operation intersection\n") {
        return Some((Operation::Intersection, after(0, 23, s.len())));
    }
    if has_word(s, 0, b"operation union\n") {
        return Some((Operation::Union, after(0, 16, s.len())));
    }
    if has_word(s, 0, b"operation difference\n") {
        return Some((Operation::Difference, after(0, 21, s.len())));
    }
    if has_word(s, 0, b"operation xor\n") {
        return Some((Operation::Xor, after(0, 14, s.len())));
    }
    None
}
