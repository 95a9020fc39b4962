// Counters and ids (document 01, 'ids and clocks').
ghost use Rattle.std.specs.Prelude.{◌≡◌};
ghost use Rattle.queue.specs.Queue.{new_ids};
ghost use Rattle.queue.specs.Ids.{assigned, published};
ghost use Rattle.queue.specs.Batch.{counted};
ghost use Rattle.upkeep.specs.Stats.{initial_ids, stats_of};

use rules::rings::{Ring, Rings};
use types::signed::{saturating_sub_one, signed_of};
use types::stats::{Counters, ProducerStats, SequenceIds};
use types::types::SequenceId;

// With the entries that a ring holds.
pub fn stats_of(counters: Counters, pending: Ring<{ Rings::PENDING }>) -> ProducerStats
    ensures { result ≡ stats_of counters pending.len }
{
    ProducerStats {
        counters,
        pending_queue_size: pending.count() as u64,
    }
}

// The waiting frames, chunks counted singly.
pub fn outbound_len_of(rings: Rings) -> usize
    ensures { result ≡ rings.waiting }
{
    rings.waiting
}

// Of a new producer.
pub fn new_ids() -> SequenceIds
    ensures { result ≡ new_ids }
{
    SequenceIds {
        next_sequence_id: SequenceId(0),
        last_sequence_id_pushed: -1,
        last_sequence_id_published: -1,
    }
}

// The next id. Above 0 the pushed and the published number go with it.
pub fn initial_ids(mut ids: SequenceIds, next: SequenceId) -> SequenceIds
    ensures { result ≡ initial_ids next.0 ids }
{
    ids.next_sequence_id = next;
    if 0 < next.0 {
        let before = saturating_sub_one(signed_of(next.0));
        ids.last_sequence_id_pushed = before;
        ids.last_sequence_id_published = before;
    }
    ids
}

// The next id is taken.
pub fn assigned_ids(ids: SequenceIds) -> SequenceIds
    ensures { result ≡ assigned ids }
{
    let id = ids.next_sequence_id;
    SequenceIds {
        next_sequence_id: SequenceId(id.0.wrapping_add(1)),
        last_sequence_id_pushed: signed_of(id.0),
        ..ids
    }
}

// Messages and bytes of frames that are pushed.
pub fn counted(counters: Counters, messages: usize, bytes: usize) -> Counters
    ensures { result ≡ counted messages bytes counters }
{
    Counters {
        total_msgs_sent: counters.total_msgs_sent.saturating_add(messages as u64),
        total_bytes_sent: counters.total_bytes_sent.saturating_add(bytes as u64),
        ..counters
    }
}

// A receipt's id becomes the published number.
pub fn published_ids(ids: SequenceIds, id: SequenceId) -> SequenceIds
    ensures { result ≡ published id.0 ids }
{
    SequenceIds {
        last_sequence_id_published: signed_of(id.0),
        ..ids
    }
}
