// A host of the producer: carries a script out and writes the answers (docs/SCRIPT.md).
#![tactic(auto, using(script::proofs::Writings::both))]

mod by_value;
mod call;
mod drive;
mod dump;
mod in_place;
mod lent;
pub mod run;
mod take;
mod task;

ghost use Rattle.script.specs.Output.{Wrote};

use crate::run::run_script;

// Crate `host_c` exports it for C and Rust.
pub fn tevrulig_run(script: &[u8], output: &mut [u8]) -> usize
    ensures { Wrote 0 output.old output.new result }
{
    run_script(script, output)
}
