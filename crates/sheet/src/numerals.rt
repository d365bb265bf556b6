// Decimal numbers without leading zeros at a place of the bytes.
ghost use Rattle.std.specs.Prelude.{◌≡◌, drop};
ghost use Rattle.sheet.specs.Reading as Reading;
ghost use Rattle.sheet.specs.Shown.{shown_ring};

use text::digits::read_decimal;
use text::words::{after, has_word};

// The bytes from `at` on.
#[tactic(auto, using(std::proofs::lemmas::List::drop_min))]
fn bytes_from(s: &[u8], at: usize) -> &[u8]
    ensures { result.now ≡ drop at s.now }
{
    &s[at.min(s.len())..]
}

// How many decimal digits stand at `at`.
fn run(s: &[u8], at: usize) -> usize
    ensures { result ≡ Reading.run (drop at s.now) }
{
    bytes_from(s, at)
        .iter()
        .take_while(|b| b.is_ascii_digit())
        .count()
}

// .. as a number without leading zeros; 0 where there is none.
#[tactic(auto, unfolding(crate::specs::Reading::numeral))]
pub fn numeral(s: &[u8], at: usize) -> usize
    ensures { result ≡ Reading.numeral (drop at s.now) }
{
    let n = run(s, at);
    if n <= 1 {
        return n;
    }
    if has_word(s, at, b"0") {
        return 0;
    }
    n
}

const MAX_RING: u64 = 0xffff_ffff;

// The ring number at `at`, and the place after it.
pub fn read_ring(s: &[u8], at: usize) -> Option<(u32, usize)>
    ensures { shown_ring s.now result ≡ Reading.ring_of (drop at s.now) }
{
    let n = numeral(s, at);
    if n == 0 {
        return None;
    }
    let v = read_decimal(s, at, n)?;
    if v > MAX_RING {
        return None;
    }
    Some((v as u32, after(at, n, s.len())))
}
