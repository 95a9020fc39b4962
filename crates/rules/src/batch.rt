// What a batch takes, and the batch with a message more (document 01, 'batch').
ghost use Rattle.std.specs.Prelude.{◌≡◌, ◌+◌, ltb};
ghost use Rattle.queue.specs.Batch.{no_source, plain, batchable, can_add_to_batch, same_txn, single_of, grown};
ghost use Rattle.rules.specs.Batch.{makes_frame};

use crate::numbers::message_count;
use types::batch::BatchContainer;
use types::error::ProducerError;
use types::message::{OutgoingMessage, SingleMessage};
use types::settings::ProducerSettings;
use types::txn::TxnId;
use types::types::SequenceId;
use wire::batch::item_len;

// Whether a message may stand in a batch at all: neither replicated nor compressed (code 0 is no compression).
pub fn is_batchable(m: OutgoingMessage) -> bool
    ensures { result ≡ batchable m }
{
    m.source_message_id.is_none() && matches!(m.compression, None | Some(0))
}

// Batching is on, the producer is open, and neither the count nor the sum of payloads passes its limit.
#[tactic(auto, unfolding(queue::specs::Batch::can_add_to_batch))]
pub fn can_add(
    t: ProducerSettings,
    b: BatchContainer,
    payload_size: usize,
    num_messages: i32,
) -> bool
    ensures { result ≡ can_add_to_batch t b payload_size num_messages }
{
    let count = b.len.saturating_add(message_count(num_messages));
    let size = b.current_size_bytes.saturating_add(payload_size);
    t.switches.batching_enabled
        && !t.switches.closed
        && count <= t.limits.max_messages_in_batch
        && size <= t.limits.max_batch_size_bytes
}

// Having no transaction differs from having one.
pub fn same_txn(x: Option<TxnId>, y: Option<TxnId>) -> bool
    ensures { result ≡ same_txn x y }
{
    x == y
}

// What a batch keeps of a message. No `From`: that would have to stand in `types`, below the definition that is cited here.
pub fn single_of(m: OutgoingMessage) -> SingleMessage
    ensures { result ≡ single_of m }
{
    SingleMessage {
        payload: m.payload,
        partition_key: m.partition_key,
        ordering_key: m.ordering_key,
        event_time: m.event_time,
        null_value: m.null_value,
        null_partition_key: m.null_partition_key,
    }
}

// The batch with one message more. The first brings lowest id, time and transaction.
pub fn with_message(
    b: BatchContainer,
    m: OutgoingMessage,
    id: SequenceId,
    now: u64,
) -> BatchContainer
    ensures { result ≡ grown m id.0 now b }
{
    let first = if b.len == 0 {
        BatchContainer {
            lowest_sequence_id: id,
            first_added_at: now,
            txn_id: m.txn_id,
            ..b
        }
    } else {
        b
    };
    BatchContainer {
        len: b.len.saturating_add(1),
        current_size_bytes: b.current_size_bytes.saturating_add(m.payload.len),
        encoded_len: b.encoded_len.saturating_add(item_len(single_of(m))),
        highest_sequence_id: id,
        ..first
    }
}

// Whether a flush that gives this answer makes its frame.
pub fn makes_frame(o: Result<usize, ProducerError>) -> bool
    ensures { result ≡ makes_frame o }
{
    matches!(o, Ok(n) if 0 < n)
}
