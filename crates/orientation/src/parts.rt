// A number taken apart: its sign, its digits and how far they are shifted.
ghost use Rattle.orientation.specs.Parts.{PartOf};

use numbers::not_finite;

const SIGN: u64 = 0x8000_0000_0000_0000;

const LEADING_DIGIT: u64 = 0x0010_0000_0000_0000;

// The size in units of 2^-1074 is digits * 2^shift. A number that is not finite counts as 0.
#[derive(Clone, Copy)]
pub struct Part {
    pub minus: bool,
    pub digits: u64,
    pub shift: u64,
}

pub fn part_of(x: f64) -> Part
    ensures { PartOf x result.minus result.digits result.shift }
{
    if not_finite(x) {
        return Part {
            minus: false,
            digits: 0,
            shift: 0,
        };
    }
    let bits = f64::to_bits(x);
    let minus = bits >= SIGN;
    let exponent = bits % SIGN / LEADING_DIGIT;
    let digits = bits % LEADING_DIGIT;
    if exponent == 0 {
        return Part {
            minus,
            digits,
            shift: 0,
        };
    }
    Part {
        minus,
        digits: LEADING_DIGIT + digits,
        shift: exponent - 1,
    }
}
