// The front frame: its payload, the frame as it goes out, and what is left of its record.
#![tactic(auto)]

pub mod after;
pub mod answer;
pub mod held;
pub mod inside;
pub mod outbound;
pub mod span;
