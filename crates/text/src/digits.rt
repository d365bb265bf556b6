// Numbers as digits at a place: 16 lowercase hex digits of a 64-bit word, or decimal without leading zeros.
ghost use Rattle.std.specs.Prelude.{◌≡◌, ◌<◌, ◌≤◌, ◌^◌, ◌+◌, ◌-◌, Bool, cond, ltb, length, get_or};
ghost use Rattle.std.proofs.lemmas.List.Edits.{sets};
ghost use Rattle.text.specs.Digits.{digit, digits, hex, places, decimal, IsTable, value, hex_at, decimal_at};
ghost use Rattle.text.specs.Words.{bytes};

use crate::words::{is_below, put_byte};

// The hex digits of a 64-bit word.
pub const HEX_DIGITS: usize = 16;

// The most decimal digits of which every number is a 64-bit word.
pub const DECIMAL_DIGITS: usize = 19;

// The byte of a digit.
#[tactic(auto, unfolding(crate::specs::Digits::digit))]
fn digit_byte(d: u64) -> u8
    requires { d < 16 }
    ensures { result ≡ digit d }
{
    let b = d as u8;
    if d < 10 {
        return b'0' + b;
    }
    (b'a' - 10) + b
}

// Stores the last `count` digits of w from `at` on, the last one first. To look a byte up costs less than to choose between the two runs of digits.
fn put_digits(buf: &mut [u8], at: usize, base: u64, count: usize, w: u64)
    requires { (1 < base) × (base ≤ 16) }
    ensures { buf.new ≡ sets buf.old at (digits base count w) }
{
    let bytes = *b"0123456789abcdef";
    let mut v = w;
    for k in (0..count).rev() {
        let d = bytes[(v % base) as usize];
        put_byte(buf, at, k, d);
        v /= base;
    }
}

// Stores the 16 hex digits of a word.
pub fn put_hex(buf: &mut [u8], at: usize, w: u64)
    ensures { buf.new ≡ sets buf.old at (hex w) }
{
    put_digits(buf, at, 16, HEX_DIGITS, w);
}

// How many digits w has in decimal.
#[tactic(auto, using(crate::proofs::Writing::decimal_counts))]
fn decimal_places(w: u64) -> usize
    ensures { result ≡ places 10 20 w }
{
    match w.checked_ilog10() {
        Some(k) => k as usize + 1,
        None => 1,
    }
}

// Stores a number in decimal without leading zeros, and answers how many digits it has.
#[tactic(auto, using(crate::proofs::Writing::lengths), unfolding(crate::specs::Digits::decimal))]
pub fn put_decimal(buf: &mut [u8], at: usize, w: u64) -> usize
    ensures value { result ≡ length (decimal w) }
    ensures buf_after { buf.new ≡ sets buf.old at (decimal w) }
{
    let n = decimal_places(w);
    put_digits(buf, at, 10, n, w);
    n
}

// The digit that each byte stands for; 16 where it is none.
#[tactic(auto, using(crate::proofs::Table::filling))]
fn digit_table() -> [u8; 256]
    ensures { IsTable result }
{
    let mut table = [16; 256];
    for d in 0..16u8 {
        table[digit_byte(d as u64) as usize] = d;
    }
    table
}

// Whether there are no digits or all of them end within the array.
fn is_within(at: usize, count: usize, len: usize) -> bool
    ensures { result ≡ cond (ltb 0 count) (ltb (at + (count - 1)) len) Bool.true }
{
    count == 0 || is_below(at, count - 1, len)
}

// The number that `count` digits from `at` on stand for. Whether all are digits is asked at the end: a branch for each costs more than reading it.
fn read_digits(s: &[u8], at: usize, base: u64, count: usize) -> Option<u64>
    requires { (1 < base) × (base ≤ 16) × (base ^ count ≤ 18446744073709551616) }
    ensures { result ≡ value base 0 (bytes s.now at count) }
{
    if !is_within(at, count, s.len()) {
        return None;
    }
    let table = digit_table();
    let mut v: u64 = 0;
    let mut all = true;
    for i in 0..count {
        let d = table[s[at + i] as usize] as u64;
        all = all & (d < base);
        v = v * base + d % base;
    }
    if all {
        return Some(v);
    }
    None
}

// The word whose 16 hex digits stand at `at`.
pub fn read_hex(s: &[u8], at: usize) -> Option<u64>
    ensures { result ≡ hex_at s.now at }
{
    read_digits(s, at, 16, HEX_DIGITS)
}

// The number whose `count` decimal digits stand at `at`; nothing where so many may be too many.
#[tactic(auto, unfolding(crate::specs::Digits::decimal_at))]
pub fn read_decimal(s: &[u8], at: usize, count: usize) -> Option<u64>
    ensures { result ≡ decimal_at s.now at count }
{
    if count > DECIMAL_DIGITS {
        return None;
    }
    read_digits(s, at, 10, count)
}
