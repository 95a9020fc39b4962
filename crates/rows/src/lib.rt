// The records of the send queue as rows of numbers, which a C or Rust program can hold: each enum a tag or a mark and numbers. Any
// bytes are a row, and every row decodes; what was encoded decodes to itself.
#![tactic(auto)]

pub mod batch;
pub mod command;
pub mod entry;
pub mod frame;
pub mod message;
pub mod optional;
pub mod outbound;
pub mod rings;
pub mod settings;
