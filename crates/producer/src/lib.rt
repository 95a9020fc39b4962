// The send queue of a producer. Each operation is planned on the scalars (crate plans) and applied to the rings.
#![tactic(auto)]

pub mod answer;
pub mod apply;
mod blank;
pub mod drain;
pub mod pending;
pub mod push;
pub mod query;
pub mod replay;
pub mod send;
pub mod settings;
pub mod settle;
pub mod state;
pub mod take;
