// Values that mean nothing: what a slot holds before its first use, and a batch record where a message would stand.
ghost use Rattle.std.specs.Prelude.{◌≡◌};
ghost use Rattle.queue.specs.Batch.{no_message};
ghost use Rattle.rules.specs.Blank.{no_publish, no_entry, no_frame};

use types::entry::{OpSend, Publish, Replay};
use types::frame::{FrameKind, FrameRecord, ProducerName};
use types::memory_limit::MemoryReservation;
use types::message::{OutgoingMessage, Part};
use types::types::SequenceId;

pub fn no_message() -> OutgoingMessage
    ensures { result ≡ no_message }
{
    OutgoingMessage {
        payload: Part { start: 0, len: 0 },
        partition_key: None,
        ordering_key: None,
        schema_version: None,
        producer_name: Part { start: 0, len: 0 },
        event_time: None,
        null_value: None,
        null_partition_key: None,
        deliver_at_time: None,
        compression: None,
        uncompressed_size: 0,
        num_messages: 0,
        txn_id: None,
        source_message_id: None,
    }
}

pub fn no_publish() -> Publish
    ensures { result ≡ no_publish }
{
    Publish {
        num_messages: 0,
        enqueued_at: 0,
        reservation: MemoryReservation { bytes: 0 },
        publish_time: 0,
        producer_name: ProducerName::empty(),
        uuid: [0; 16],
        message: no_message(),
        replay: Replay::Batched,
    }
}

pub fn no_entry() -> OpSend
    ensures { result ≡ no_entry }
{
    OpSend {
        sequence_id: SequenceId(0),
        answerable: false,
        publish: no_publish(),
    }
}

pub fn no_frame() -> FrameRecord
    ensures { result ≡ no_frame }
{
    FrameRecord {
        sequence_id: SequenceId(0),
        publish_time: 0,
        producer_name: ProducerName::empty(),
        uuid: [0; 16],
        message: no_message(),
        kind: FrameKind::Single,
    }
}
