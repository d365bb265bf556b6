// The words of a line after the first. Each reader takes a place and answers the place after what it read, or MISSING, where nothing stands:
// so a line that goes wrong stays wrong, and one test at its end is enough.
use text::digits::{HEX_DIGITS, read_decimal, read_hex};
use text::words::{after, byte_at, has_word};

pub const MISSING: usize = usize::MAX;

pub fn passed(line: &[u8], at: usize, word: &[u8]) -> usize {
    if has_word(line, at, word) {
        return after(at, word.len(), line.len());
    }
    MISSING
}

// Numbers by their bits, each after one space.
pub fn numbers(line: &[u8], from: usize, into: &mut [u64]) -> usize {
    let mut at = from;
    for number in into.iter_mut() {
        let digits = passed(line, at, b" ");
        let Some(bits) = read_hex(line, digits) else {
            return MISSING;
        };
        *number = bits;
        at = after(digits, HEX_DIGITS, line.len());
    }
    at
}

// Flags, each after one space.
pub fn flags(line: &[u8], from: usize, into: &mut [bool]) -> usize {
    let mut at = from;
    for flag in into.iter_mut() {
        let digit = passed(line, at, b" ");
        let b = byte_at(line, digit, 0);
        if b != b'0' && b != b'1' {
            return MISSING;
        }
        *flag = b == b'1';
        at = after(digit, 1, line.len());
    }
    at
}

// How many decimal digits stand at `at`.
fn digits(line: &[u8], at: usize) -> usize {
    line.iter()
        .skip(at)
        .take_while(|b| b.is_ascii_digit())
        .count()
}

// A ring number and the place after it.
#[derive(Clone, Copy)]
pub struct ReadRing {
    pub number: u32,
    pub after: usize,
}

const MAX_RING: u64 = 0xffff_ffff;

fn no_ring() -> ReadRing {
    ReadRing {
        number: 0,
        after: MISSING,
    }
}

// 32 bits in decimal without leading zeros, after one space.
pub fn ring(line: &[u8], from: usize) -> ReadRing {
    let at = passed(line, from, b" ");
    let n = digits(line, at);
    if n == 0 || n > 1 && byte_at(line, at, 0) == b'0' {
        return no_ring();
    }
    let Some(number) = read_decimal(line, at, n) else {
        return no_ring();
    };
    if number > MAX_RING {
        return no_ring();
    }
    ReadRing {
        number: number as u32,
        after: after(at, n, line.len()),
    }
}
