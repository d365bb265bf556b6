// Binary64 numbers and the plain structs of them (`helper.rs`).
#![tactic(auto)]

ghost use Rattle.std.specs.Prelude.{◌≡◌};
ghost use Rattle.numbers.specs.Binary64.{unsigned as unsigned_of, not_finite, first_not_finite, minimum, maximum};
ghost use Rattle.numbers.specs.Next.{next_up};

// 2^1023: a number that lies between its negative and it is finite.
pub const HUGE: f64 = 8.98846567431158e307;

pub mod points;
pub mod words;

#[derive(Clone, Copy)]
pub struct Coordinate {
    pub x: f64,
    pub y: f64,
}

// A point of two words: of binary64 each is the pattern of a number (`words`).
#[derive(Clone, Copy)]
pub struct Point {
    pub x: u64,
    pub y: u64,
}

#[derive(Clone, Copy)]
pub struct BoundingBox {
    pub min: Coordinate,
    pub max: Coordinate,
}

// Minus zero becomes zero.
#[tactic(auto, unfolding(crate::specs::Binary64::unsigned))]
pub fn unsigned(x: f64) -> f64
    ensures { result ≡ unsigned_of x }
{
    if x == 0.0 {
        return 0.0;
    }
    x
}

// Two comparisons take less time than the library's is_finite.
#[tactic(auto, using(crate::proofs::Ends::not_finite_is))]
pub fn not_finite(x: f64) -> bool
    ensures { result ≡ not_finite x }
{
    !(f64::NEG_INFINITY < x && x < f64::INFINITY)
}

// The place of the first number that is not finite; the length where all are.
pub fn first_not_finite(numbers: &[f64]) -> usize
    ensures { result ≡ first_not_finite numbers.now }
{
    numbers
        .iter()
        .position(|x| not_finite(*x))
        .unwrap_or(numbers.len())
}

#[tactic(auto, using(crate::proofs::Ends::differs_is))]
pub fn min(a: f64, b: f64) -> f64
    ensures { result ≡ minimum a b }
{
    if a.is_nan() {
        return b;
    }
    if b < a { b } else { a }
}

#[tactic(auto, using(crate::proofs::Ends::differs_is))]
pub fn max(a: f64, b: f64) -> f64
    ensures { result ≡ maximum a b }
{
    if a.is_nan() {
        return b;
    }
    if a < b { b } else { a }
}

// IEEE 754's next_up: the least number that compares greater.
#[tactic(auto, using(crate::proofs::Next::next_up_is))]
pub fn next_up(x: f64) -> f64
    ensures { result ≡ next_up x }
{
    x.next_up()
}
