// Which entries a drain hands out, and what it leaves of the index.
ghost use Rattle.std.specs.Prelude.{◌≡◌, length, map, take_while};
ghost use Rattle.rows.specs.Entry.{decode_entry};
ghost use Rattle.tables.specs.Drain.{cleared_each, due_row, gone_count, handout_of, is_due};

use rows::entry::OpSendRow;
use rules::rings::Rings;
use types::entry::OpSend;
use types::error::ProducerError;
use types::types::SequenceId;
use upkeep::deadline::{after, elapsed};
use upkeep::pending::unmark;

// So many entries are to be handed out; 9 where the table is too short for all.
pub fn fitted(count: usize, room: usize) -> Result<usize, ProducerError>
    ensures { result ≡ handout_of count room }
{
    if room < count {
        Err(ProducerError::TooShort)
    } else {
        Ok(count)
    }
}

fn is_due(op: OpSend, timeout: Option<u64>, time: u64) -> bool
    ensures { result ≡ is_due time timeout op }
{
    elapsed(time, after(timeout, op.publish.enqueued_at))
}

// How many of the entries are due, from the front: it stops at the first that has time left, even if a later one is due ('ids
// and clocks').
fn due_count(entries: &[OpSendRow], timeout: Option<u64>, time: u64) -> usize
    ensures { result ≡ length (take_while (due_row time timeout) entries.now) }
{
    entries
        .iter()
        .take_while(|op| is_due(op.decode(), timeout, time))
        .count()
}

// How many of the entries a drain hands out: those that are due at a time, or all.
#[tactic(auto, using(crate::proofs::Chains::due_while))]
pub fn gone_count(entries: &[OpSendRow], timeout: Option<u64>, due: Option<u64>) -> usize
    ensures { result ≡ gone_count due timeout (map decode_entry entries.now) }
{
    match due {
        None => entries.len(),
        Some(time) => due_count(entries, timeout, time),
    }
}

// The ids of the entries leave the index.
pub fn unmark_each(
    marks: &mut [u8; Rings::PENDING],
    ids: &[SequenceId; Rings::PENDING],
    gone: &[OpSendRow],
)
    ensures { marks.new ≡ cleared_each (map decode_entry gone.now) ids.now marks.old }
{
    for op in gone {
        unmark(marks, ids, op.sequence_id);
    }
}
