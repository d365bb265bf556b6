// Coordinates by their bits.
pub const ZERO: u64 = 0;

pub const MINUS_ZERO: u64 = 0x8000_0000_0000_0000;

// 2^-1074.
pub const LEAST: u64 = 1;

pub const HALF: u64 = 0x3fe0_0000_0000_0000;

pub const ONE: u64 = 0x3ff0_0000_0000_0000;

pub const MINUS_ONE: u64 = 0xbff0_0000_0000_0000;

pub const ONE_AND_HALF: u64 = 0x3ff8_0000_0000_0000;

pub const TWO: u64 = 0x4000_0000_0000_0000;

pub const MINUS_TWO: u64 = 0xc000_0000_0000_0000;

pub const THREE: u64 = 0x4008_0000_0000_0000;

pub const FOUR: u64 = 0x4010_0000_0000_0000;

pub const FIVE: u64 = 0x4014_0000_0000_0000;

// t = 2^-300, whose fourth power vanishes, 2t and 3t.
pub const TINY: u64 = 0x2d30_0000_0000_0000;

pub const TWO_TINY: u64 = 0x2d40_0000_0000_0000;

pub const THREE_TINY: u64 = 0x2d48_0000_0000_0000;

// 2^100, and the next number.
pub const LIMIT: u64 = 0x4630_0000_0000_0000;

pub const ABOVE: u64 = 0x4630_0000_0000_0001;

pub const MINUS_LIMIT: u64 = 0xc630_0000_0000_0000;

pub const MINUS_ABOVE: u64 = 0xc630_0000_0000_0001;

// 2^1023.
pub const HUGE: u64 = 0x7fe0_0000_0000_0000;

pub const MINUS_HUGE: u64 = 0xffe0_0000_0000_0000;

pub const INFINITY: u64 = 0x7ff0_0000_0000_0000;

pub const MINUS_INFINITY: u64 = 0xfff0_0000_0000_0000;

// Not numbers: quiet with a payload, signalling, and negative.
pub const QUIET: u64 = 0x7ff8_0000_0000_002a;

pub const SIGNALLING: u64 = 0x7ff0_0000_0000_0001;

pub const NEGATIVE: u64 = 0xffff_ffff_ffff_ffff;
