// What a producer keeps besides its messages, on plain values: settings, ids and counters, deadlines, and the search among the pending ids.
#![tactic(auto)]

pub mod deadline;
pub mod pending;
pub mod settings;
pub mod stats;
