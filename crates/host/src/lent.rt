// The operations that are lent tables.
ghost use Rattle.std.specs.Prelude.{◌≤◌, length};
ghost use Rattle.producer.specs.Tables.{handed_count};
ghost use Rattle.script.specs.Output.{Writes};

use crate::drive::Drive;
use crate::task::Task;
use rows::entry::OpSendRow;
use rules::rings::Rings;
use script::answer::put_done;
use script::operation::{Call, ENTRY, MOST_ENTRIES, entries};
use script::read::Place;
use script::write::{Output, low_half};
use tables::list::Listed;
use types::error::ProducerError;

pub(crate) type Table = Listed<OpSendRow, { MOST_ENTRIES }>;

// The first entries of a table, as many as are asked for.
fn first(table: &[OpSendRow], n: usize) -> &[OpSendRow] {
    table.get(..n).unwrap_or(table)
}

pub(crate) fn no_table() -> Table {
    Listed {
        items: [OpSendRow::blank(); MOST_ENTRIES],
        len: 0,
    }
}

// The table that a script writes out, at its count.
fn written(place: Place) -> Table {
    let bytes = entries(place);
    let mut items = [OpSendRow::blank(); MOST_ENTRIES];
    for (op, entry) in items.iter_mut().zip(bytes.chunks_exact(ENTRY)) {
        *op = OpSendRow::encode(Place::start(entry).get());
    }
    Listed {
        items,
        len: bytes.len() / ENTRY,
    }
}

// No more places are lent than entries can be pending.
fn room_at(place: Place) -> usize
    ensures { result ≤ Rings.PENDING }
{
    (place.get::<u32>() as usize).min(Rings::PENDING)
}

// What a drain answers: a count and so many entries of its table, or a refusal.
fn put_drained(
    out: &mut Output,
    call: Call,
    table: &[OpSendRow],
    answer: Result<usize, ProducerError>,
)
    requires { handed_count answer ≤ length table.now }
    ensures { Writes out.old out.new }
{
    match answer {
        Ok(n) => put_done(out, call, (low_half(n as u64), &table[..n])),
        Err(e) => out.put((call, e)),
    }
}

#[inline(never)]
pub(crate) fn call_drain<D: Drive>(d: &mut D, task: Task, out: &mut Output)
    ensures { Writes out.old out.new }
{
    let mut table = no_table().items;
    if task.call == Call::DrainTimedOutSends {
        let n = room_at(task.arguments.behind(8));
        let answer = d.drain_timed_out_sends(task.arguments.get(), &mut table[..n]);
        put_drained(out, task.call, &table[..n], answer);
    } else {
        let n = room_at(task.arguments);
        let answer = d.drain_pending_sends(&mut table[..n]);
        put_drained(out, task.call, &table[..n], answer);
    }
}

// `last` has the replay table of the last snapshot. One that is refused leaves it.
#[inline(never)]
pub(crate) fn call_snapshot<D: Drive>(d: &mut D, last: &mut Table, task: Task, out: &mut Output)
    ensures { Writes out.old out.new }
{
    let mut dropped = no_table().items;
    let mut replay = no_table().items;
    let n = room_at(task.arguments);
    let m = room_at(task.arguments.behind(4));
    match d.snapshot_pending_sends(&mut dropped[..n], &mut replay[..m]) {
        Ok(n) => {
            let counts = (low_half(n.dropped as u64), low_half(n.replay as u64));
            let entries = (&dropped[..n.dropped], &replay[..n.replay]);
            put_done(out, task.call, (counts, entries));
            *last = Listed {
                items: replay,
                len: n.replay,
            };
        }
        Err(e) => out.put((task.call, e)),
    }
}

#[inline(never)]
pub(crate) fn call_replay<D: Drive>(d: &mut D, last: &Table, task: Task, out: &mut Output)
    ensures { Writes out.old out.new }
{
    let answer = if task.call == Call::ReplaySnapshots {
        d.replay_snapshots(written(task.arguments).as_slice())
    } else {
        let n = task.arguments.get::<u32>() as usize;
        d.replay_snapshots(first(last.as_slice(), n))
    };
    out.put((task.call, answer));
}
