// Answers put into `out` from `at` on; each function answers the place after.
use events::Event;
use refusals::Refusal;
use text::digits::{HEX_DIGITS, put_decimal, put_hex};
use text::words::{after, put_word};

pub fn word(out: &mut [u8], at: usize, word: &[u8]) -> usize {
    put_word(out, at, word);
    after(at, word.len(), out.len())
}

pub fn bits(out: &mut [u8], at: usize, x: u64) -> usize {
    put_hex(out, at, x);
    after(at, HEX_DIGITS, out.len())
}

// A space and a number's bits.
pub fn number(out: &mut [u8], from: usize, x: u64) -> usize {
    let at = word(out, from, b" ");
    bits(out, at, x)
}

pub fn decimal(out: &mut [u8], at: usize, n: u64) -> usize {
    let digits = put_decimal(out, at, n);
    after(at, digits, out.len())
}

pub fn flag(out: &mut [u8], at: usize, b: bool) -> usize {
    if b {
        return word(out, at, b"1");
    }
    word(out, at, b"0")
}

// An event's point and left flag, after a space.
pub fn end(out: &mut [u8], from: usize, e: Event) -> usize {
    let at = number(out, from, e.point.x);
    let at = number(out, at, e.point.y);
    let at = word(out, at, b" ");
    flag(out, at, e.left)
}

pub fn refused(out: &mut [u8], from: usize, refusal: Refusal) -> usize {
    let at = word(out, from, b"refused ");
    let at = decimal(out, at, u64::from(refusal.reason));
    let at = word(out, at, b" at ");
    decimal(out, at, refusal.place)
}

pub fn malformed(out: &mut [u8], at: usize) -> usize {
    word(out, at, b"malformed")
}
