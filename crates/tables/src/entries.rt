// What a replay makes of an entry, and which entries it takes (document 01, 'receipts, errors, snapshot, replay').
ghost use Rattle.std.specs.Prelude.{◌≡◌, map};
ghost use Rattle.rows.specs.Entry.{decode_entry};
ghost use Rattle.queue.specs.Tables.{is_batched, frames_of, kind_again, again, has_chunk_count, well_formed, all_well_formed};
ghost use Rattle.tables.specs.Again.{unless_batched};

use plans::send::frame_of;
use rows::entry::OpSendRow;
use rules::bounds::within_bounds;
use rules::chunks::compute_total_chunks;
use types::entry::{OpSend, Replay};
use types::frame::{ChunkedMessageContext, FrameKind, FrameRecord};

// Whether the entry has no frame of its own.
pub fn is_batched(replay: Replay) -> bool
    ensures { result ≡ is_batched replay }
{
    matches!(replay, Replay::Batched)
}

// How many frames a replay pushes.
pub fn frames_of(replay: Replay) -> usize
    ensures { result ≡ frames_of replay }
{
    match replay {
        Replay::Batched => 0,
        Replay::Single => 1,
        Replay::Chunked { total_chunks, .. } => total_chunks as usize,
    }
}

// A chunked message starts anew, however many of its chunks had been taken.
pub fn kind_again(replay: Replay) -> FrameKind
    ensures { result ≡ kind_again replay }
{
    match replay {
        Replay::Batched | Replay::Single => FrameKind::Single,
        Replay::Chunked {
            total_chunks,
            max_chunk_size,
        } => FrameKind::Chunked(ChunkedMessageContext {
            total_chunks,
            next_chunk: 0,
            max_chunk_size,
        }),
    }
}

// An entry's message as a frame record, chunks from the first on.
pub fn again(op: OpSend) -> FrameRecord
    ensures { result ≡ again op }
{
    frame_of(op.sequence_id, op.publish, kind_again(op.publish.replay))
}

// What a replay pushes of an entry: nothing of a batched one.
pub fn frame_again(op: OpSend) -> Option<FrameRecord>
    ensures { result ≡ unless_batched op.publish.replay (again op) }
{
    (!is_batched(op.publish.replay)).then_some(again(op))
}

// Whether a chunked entry's count is that of its payload length and chunk size.
fn has_chunk_count(len: usize, replay: Replay) -> bool
    ensures { result ≡ has_chunk_count len replay }
{
    match replay {
        Replay::Batched | Replay::Single => true,
        Replay::Chunked {
            total_chunks,
            max_chunk_size,
        } => {
            let count = compute_total_chunks(len, max_chunk_size as usize);
            total_chunks == count
        }
    }
}

// 12, of entries of every kind.
pub fn well_formed(op: OpSend) -> bool
    ensures { result ≡ well_formed op }
{
    let publish = op.publish;
    has_chunk_count(publish.message.payload.len, publish.replay)
        && within_bounds(publish.message, publish.reservation)
}

// 12, of a whole table: also of one that 7 would refuse by its length.
pub fn all_well_formed(table: &[OpSendRow]) -> bool
    ensures { result ≡ all_well_formed (map decode_entry table.now) }
{
    for op in table {
        if !well_formed(op.decode()) {
            return false;
        }
    }
    true
}
