// Words and numbers put one after the other. Each answers the place after what it put, whether it fitted or not.
ghost use Rattle.text.specs.Digits.{decimal, hex};
ghost use Rattle.sheet.specs.Sheet.{count_line, number_bytes};
ghost use Rattle.printing.specs.Put.{Put};

use text::digits::{HEX_DIGITS, put_decimal, put_hex};
use text::words::{after, put_word};

// The largest place that can be told.
const MOST: usize = usize::MAX;

pub fn text(out: &mut [u8], at: usize, word: &[u8]) -> usize
    ensures { Put out.old at word.now out.new result }
{
    put_word(out, at, word);
    after(at, word.len(), MOST)
}

pub fn number(out: &mut [u8], at: usize, n: u64) -> usize
    ensures { Put out.old at (decimal n) out.new result }
{
    let digits = put_decimal(out, at, n);
    after(at, digits, MOST)
}

// The hex digits of a 64-bit word.
#[tactic(auto, using(crate::proofs::Goings::sixteen))]
pub fn bits(out: &mut [u8], at: usize, w: u64) -> usize
    ensures { Put out.old at (hex w) out.new result }
{
    put_hex(out, at, w);
    after(at, HEX_DIGITS, MOST)
}

// .. behind a space.
pub fn word(out: &mut [u8], at: usize, w: u64) -> usize
    ensures { Put out.old at (number_bytes w) out.new result }
{
    let digits = text(out, at, b" ");
    bits(out, digits, w)
}

// A word, a number and the line feed.
pub fn line(out: &mut [u8], at: usize, word: &[u8], n: u64) -> usize
    ensures { Put out.old at (count_line word.now n) out.new result }
{
    let digits = text(out, at, word);
    let end = number(out, digits, n);
    text(out, end, b"\n")
}
