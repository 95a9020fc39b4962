// The scalars of a producer, and plans: what an operation answers, the scalars after it, and which records go where. A plan sees
// the few records that it needs and never an array; what drains leave of the scalars is in crate `tables`.
#![tactic(auto)]

pub mod batch;
pub mod choose;
pub mod delta;
pub mod ids;
pub mod replay;
pub mod send;
pub mod settings;
pub mod state;
pub mod take;
pub mod way;
