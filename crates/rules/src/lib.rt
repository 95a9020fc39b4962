// Functions on plain values that a send and a replay are made of: numbers, bounds, chunks, the tests of a batch and of a way, and
// places in rings.
#![tactic(auto)]

pub mod batch;
pub mod blank;
pub mod bounds;
pub mod chunks;
pub mod numbers;
pub mod rings;
pub mod way;
