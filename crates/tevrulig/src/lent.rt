// Drains, the snapshot and the replays: pending entries in tables that the caller lends.
ghost use Rattle.std.specs.Prelude.{[], length, map};
ghost use Rattle.queue.specs.Run.{drain, timeouts, snapshot, replay, resend};
ghost use Rattle.producer.specs.Meets.{Meets};
ghost use Rattle.producer.specs.Tables.{Beyond};
ghost use Rattle.rows.specs.Entry.{decode_entry};
ghost use Rattle.tevrulig.specs.Answers.{answered, status_answer, table_answer, snapshot_answer, rows_given, Left};

use crate::settings::status;
use producer::state::ProducerState;
use rows::entry::OpSendRow;

// How many entries a snapshot has written to its tables.
#[derive(Clone, Copy)]
#[repr(C)]
pub struct Counts {
    pub dropped: usize,
    pub replay: usize,
}

// All entries. Batch and frames are emptied with them.
#[unsafe(no_mangle)]
pub extern "C" fn tevrulig_drain_pending_sends(
    producer: &mut ProducerState,
    table: &mut [OpSendRow],
    count: &mut usize,
) -> u32
    ensures meets { Meets [] (drain (length table.old)) producer.old producer.new (table_answer result count.new table.new) }
    ensures kept { Left result producer.old producer.new }
    ensures count { Left result count.old count.new }
    ensures beyond { Beyond (rows_given result count.new) table.old table.new }
{
    match producer.drain(table) {
        Ok(n) => {
            *count = n;
            0
        }
        Err(e) => e.number(),
    }
}

// The entries from the front that are due. Frames and batched messages stay.
#[unsafe(no_mangle)]
pub extern "C" fn tevrulig_drain_timed_out_sends(
    producer: &mut ProducerState,
    now: u64,
    table: &mut [OpSendRow],
    count: &mut usize,
) -> u32
    ensures meets { Meets [] (timeouts now (length table.old)) producer.old producer.new (table_answer result count.new table.new) }
    ensures kept { Left result producer.old producer.new }
    ensures count { Left result count.old count.new }
    ensures beyond { Beyond (rows_given result count.new) table.old table.new }
{
    match producer.time_out(now, table) {
        Ok(n) => {
            *count = n;
            0
        }
        Err(e) => e.number(),
    }
}

// All entries: the batched ones are dropped, the others are there for a replay.
#[unsafe(no_mangle)]
pub extern "C" fn tevrulig_snapshot_pending_sends(
    producer: &mut ProducerState,
    dropped: &mut [OpSendRow],
    replay: &mut [OpSendRow],
    counts: &mut Counts,
) -> u32
    ensures meets { Meets [] (snapshot (length dropped.old) (length replay.old)) producer.old producer.new (snapshot_answer result counts.new dropped.new replay.new) }
    ensures kept { Left result producer.old producer.new }
    ensures counts { Left result counts.old counts.new }
    ensures dropped { Beyond (rows_given result counts.new.dropped) dropped.old dropped.new }
    ensures replay { Beyond (rows_given result counts.new.replay) replay.old replay.new }
{
    match producer.snapshot(dropped, replay) {
        Ok(n) => {
            *counts = Counts {
                dropped: n.dropped,
                replay: n.replay,
            };
            0
        }
        Err(e) => e.number(),
    }
}

// Puts the entries of a table and their frames at the front.
#[unsafe(no_mangle)]
pub extern "C" fn tevrulig_replay_snapshots(
    producer: &mut ProducerState,
    table: &[OpSendRow],
) -> u32
    ensures meets { Meets [] (replay (map decode_entry table.now)) producer.old producer.new (status_answer result) }
    ensures kept { Left result producer.old producer.new }
{
    status(producer.replay(table))
}

// Fronts the frames of the entries whose id no waiting frame bears, and answers how many.
#[unsafe(no_mangle)]
pub extern "C" fn tevrulig_replay_pending_outbound(
    producer: &mut ProducerState,
    count: &mut usize,
) -> u32
    ensures meets { Meets [] resend producer.old producer.new (answered result count.new) }
    ensures kept { Left result producer.old producer.new }
    ensures count { Left result count.old count.new }
{
    match producer.resend() {
        Ok(n) => {
            *count = n;
            0
        }
        Err(e) => e.number(),
    }
}
