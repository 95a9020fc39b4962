// Scripts of operations and their answers, as bytes (docs/SCRIPT.md).
#![tactic(auto)]

pub mod answer;
pub mod operation;
pub mod read;
pub mod values;
pub mod write;
