// What the tests of records share: coordinates by their bits, and changes of single numbers in a pool.
#![tactic(auto)]

pub mod bits;
pub mod changes;
