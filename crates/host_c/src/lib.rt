// `host::tevrulig_run` exported for C and Rust. A library that other crates build on is no static library, so the export has
// a crate of its own.
#![tactic(auto)]

ghost use Rattle.script.specs.Output.{Wrote};

#[unsafe(no_mangle)]
pub extern "C" fn tevrulig_run(script: &[u8], output: &mut [u8]) -> usize
    ensures { Wrote 0 output.old output.new result }
{
    host::tevrulig_run(script, output)
}
