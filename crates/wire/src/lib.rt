// What stands in a batch frame's payload, byte by byte, and a uuid's text.
#![tactic(auto)]

pub mod batch;
mod be32;
pub mod copy;
mod field;
pub mod single;
pub mod uuid;
mod varint;
