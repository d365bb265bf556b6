// Bytes to numbers and back, at a place of a byte array. Every place is allowed: past the end nothing stands, and nothing is stored.
#![tactic(auto)]

pub mod digits;
pub mod words;
