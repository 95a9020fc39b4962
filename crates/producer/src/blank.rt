// What stands in the rings of a new producer: records of zeros, which mean nothing yet. As constants they are written in one
// piece; encoded from a blank record, each slot is copied.
use rows::entry::{PublishRow, ReplayRow};
use rows::frame::{FrameRow, KindRow};
use rows::message::{MessageRow, SingleRow};
use rows::optional::{
    OptionalBool, OptionalI32, OptionalI64, OptionalMessageId, OptionalPart, OptionalTxnId,
    OptionalU64,
};
use types::frame::ProducerName;
use types::memory_limit::MemoryReservation;
use types::message::Part;
use types::txn::TxnId;
use types::types::{MessageId, SequenceId};

const NO_PART: Part = Part { start: 0, len: 0 };

const PART: OptionalPart = OptionalPart {
    value: NO_PART,
    present: 0,
};

const TIME: OptionalU64 = OptionalU64 {
    value: 0,
    present: 0,
};

const MARK: OptionalBool = OptionalBool {
    value: 0,
    present: 0,
};

const TXN: OptionalTxnId = OptionalTxnId {
    value: TxnId {
        most_sig_bits: 0,
        least_sig_bits: 0,
    },
    present: 0,
};

const NAME: ProducerName = ProducerName {
    bytes: [0; 64],
    len: 0,
};

pub(crate) const SINGLE: SingleRow = SingleRow {
    payload: NO_PART,
    partition_key: PART,
    ordering_key: PART,
    event_time: TIME,
    null_value: MARK,
    null_partition_key: MARK,
};

const MESSAGE: MessageRow = MessageRow {
    payload: NO_PART,
    partition_key: PART,
    ordering_key: PART,
    schema_version: PART,
    producer_name: NO_PART,
    event_time: TIME,
    deliver_at_time: OptionalI64 {
        value: 0,
        present: 0,
    },
    txn_id: TXN,
    source_message_id: OptionalMessageId {
        value: MessageId {
            ledger_id: 0,
            entry_id: 0,
            partition: 0,
            batch_index: 0,
            batch_size: 0,
        },
        present: 0,
    },
    compression: OptionalI32 {
        value: 0,
        present: 0,
    },
    uncompressed_size: 0,
    num_messages: 0,
    null_value: MARK,
    null_partition_key: MARK,
};

pub(crate) const FRAME: FrameRow = FrameRow {
    sequence_id: SequenceId(0),
    publish_time: 0,
    producer_name: NAME,
    uuid: [0; 16],
    message: MESSAGE,
    kind: KindRow {
        kind: 0,
        total_chunks: 0,
        next_chunk: 0,
        max_chunk_size: 0,
        num_messages: 0,
        current_size_bytes: 0,
        highest_sequence_id: SequenceId(0),
        txn_id: TXN,
    },
};

pub(crate) const PUBLISH: PublishRow = PublishRow {
    enqueued_at: 0,
    reservation: MemoryReservation { bytes: 0 },
    publish_time: 0,
    producer_name: NAME,
    uuid: [0; 16],
    message: MESSAGE,
    num_messages: 0,
    replay: ReplayRow {
        kind: 0,
        total_chunks: 0,
        max_chunk_size: 0,
    },
};
