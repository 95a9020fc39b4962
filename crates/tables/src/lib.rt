// Pending entries in tables that the caller lends, and what a replay makes of them.
#![tactic(auto)]

pub mod copy;
pub mod drain;
pub mod entries;
pub mod list;
pub mod pick;
pub mod pushes;
pub mod scalars;
pub mod snapshot;
pub mod unborne;
