// Words that hold a number by its pattern: every word has a value.
ghost use Rattle.std.specs.Prelude.{◌≡◌};
ghost use Rattle.std.specs.Float.{binary64};
ghost use Rattle.std.specs.Float.Ieee.{of_bits, to_bits};
ghost use Rattle.numbers.specs.Words.{value as value_of_word, unfit_word, unsigned_word, value_of, words_of};

use crate::{Coordinate, Point};
use std::num::{f64_from_bits_with_nan, f64_to_bits_with_nan};

const SIGN: u64 = 0x8000_0000_0000_0000;

const INFINITY: u64 = 0x7ff0_0000_0000_0000;

// 2^100.
const LIMIT: u64 = 0x4630_0000_0000_0000;

// The number of a pattern.
pub fn number(w: u64) -> f64
    ensures { result ≡ of_bits binary64 w }
{
    f64_from_bits_with_nan(w)
}

// A word that is not finite counts as 0.
#[tactic(auto, using(crate::proofs::Values::patterns))]
pub fn value(w: u64) -> f64
    ensures { result ≡ value_of_word w }
{
    if w % SIGN < INFINITY {
        return f64::from_bits(w);
    }
    0.0
}

// The pattern of a number.
pub fn word(x: f64) -> u64
    ensures { result ≡ to_bits binary64 x }
{
    f64_to_bits_with_nan(x)
}

// Not finite, or above 2^100 in size: of one sign patterns stand in the order of their sizes, and those of no finite number come last.
#[tactic(auto, using(crate::proofs::Limit::unfit_word_is))]
pub fn is_unfit_word(w: u64) -> bool
    ensures { result ≡ unfit_word w }
{
    LIMIT < w % SIGN
}

// Minus zero becomes zero.
#[tactic(auto, unfolding(crate::specs::Words::unsigned_word))]
pub fn unsigned_word(w: u64) -> u64
    ensures { result ≡ unsigned_word w }
{
    if w % SIGN == 0 {
        return 0;
    }
    w
}

#[tactic(auto, unfolding(crate::specs::Words::value_of))]
pub fn value_of(p: Point) -> Coordinate
    ensures { result ≡ value_of p }
{
    Coordinate {
        x: value(p.x),
        y: value(p.y),
    }
}

#[tactic(auto, unfolding(crate::specs::Words::words_of))]
pub fn words_of(p: Coordinate) -> Point
    ensures { result ≡ words_of p }
{
    Point {
        x: word(p.x),
        y: word(p.y),
    }
}
