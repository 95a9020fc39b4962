// A whole script.
ghost use Rattle.std.specs.Prelude.{◌≤◌, length};
ghost use Rattle.script.specs.Output.{Wrote, Writes};
ghost use Rattle.host.specs.Steps.{Steps};

use crate::by_value::ByValue;
use crate::call::carry_out;
use crate::drive::Drive;
use crate::in_place::InPlace;
use crate::lent::no_table;
use crate::task::Task;
use script::answer::Ending;
use script::operation::{Head, Operation, head_of, operation_at};
use script::read::Place;
use script::write::Output;

// An answer of so many bytes and an ending record behind it.
fn fits(room: u64, out: &Output) -> bool {
    room.saturating_add(9) <= out.bytes.len().saturating_sub(out.at) as u64
}

// The operation that is next. None once the run has ended; its ending record is then written.
fn next_operation(place: Place, out: &mut Output) -> Option<Operation>
    ensures onward { Steps place.entry.at (length place.entry.script.now) result }
    ensures ending { Writes out.old out.new }
{
    if place.script.len() <= place.at {
        out.put((Ending::End, place.script.len()));
        return None;
    }
    match operation_at(place) {
        None => {
            out.put((Ending::Malformed, place.at));
            None
        }
        Some(op) => {
            if fits(op.room, out) {
                return Some(op);
            }
            out.put((Ending::NoRoom, place.at));
            None
        }
    }
}

#[inline(never)]
fn run<D: Drive>(head: Head, out: &mut Output)
    requires { out.old.at ≤ length out.old.bytes.now }
    ensures { Writes out.old out.new }
{
    let mut drive = D::new(head.handle);
    let mut last = no_table();
    let mut place = head.operations;
    while let Some(op) = next_operation(place, out) {
        let task = Task {
            call: op.call,
            arguments: place.behind(1),
            store: head.store,
        };
        carry_out(&mut drive, &mut last, task, out);
        place = place.behind(op.size);
    }
}

pub fn run_script(script: &[u8], out: &mut [u8]) -> usize
    ensures { Wrote 0 out.old out.new result }
{
    if out.len() < 9 {
        return 0;
    }
    let mut out = Output::new(out);
    match head_of(script) {
        None => out.put((Ending::Malformed, 0usize)),
        Some(head) => {
            if head.in_place {
                run::<InPlace>(head, &mut out);
            } else {
                run::<ByValue>(head, &mut out);
            }
        }
    }
    out.at
}
