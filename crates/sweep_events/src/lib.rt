// What one event of the sweep does to the records of the pool: its class, its meetings with its neighbours in the status, and its place there.
#![tactic(auto)]

pub mod classes;
mod clear;
pub mod meetings;
pub mod slots;
