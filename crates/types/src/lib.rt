// The values that the send queue is made of: identifiers, times, transactions, reservations and refusals file by file as in
// the Rust, and from its producer.rs the message, the frames that wait, the pending entries and the scalars of a producer.
#![tactic(auto)]

pub mod answer;
pub mod batch;
pub mod command;
pub mod entry;
pub mod error;
pub mod frame;
pub mod memory_limit;
pub mod message;
pub mod outbound;
pub mod settings;
pub mod signed;
pub mod stats;
pub mod time;
pub mod txn;
pub mod types;
pub mod way;
