// A message on its way out, with its bytes as parts of the store that the caller lends.
use crate::txn::TxnId;
use crate::types::MessageId;

// A start and a length in the store.
#[derive(Clone, Copy, PartialEq, Eq)]
#[repr(C)]
pub struct Part {
    pub start: usize,
    pub len: usize,
}

#[derive(Clone, Copy, PartialEq, Eq)]
pub struct OutgoingMessage {
    pub payload: Part,
    pub partition_key: Option<Part>,
    pub ordering_key: Option<Part>,
    pub schema_version: Option<Part>,
    // The producer's name stands in the frame where this is empty.
    pub producer_name: Part,
    pub event_time: Option<u64>,
    pub null_value: Option<bool>,
    pub null_partition_key: Option<bool>,
    pub deliver_at_time: Option<i64>,
    // The codec that the caller has compressed with.
    pub compression: Option<i32>,
    pub uncompressed_size: u32,
    // The messages that this one stands for.
    pub num_messages: i32,
    pub txn_id: Option<TxnId>,
    // Where the message was first stored, of a replicated one.
    pub source_message_id: Option<MessageId>,
}

impl OutgoingMessage {
    // The longest payload that a send takes (refusal 3).
    pub const MAX_PAYLOAD: usize = 16_777_216;

    // The longest key or schema version.
    pub const MAX_KEY: usize = 1024;
}

// What a batch keeps of a message.
#[derive(Clone, Copy, PartialEq, Eq)]
pub struct SingleMessage {
    pub payload: Part,
    pub partition_key: Option<Part>,
    pub ordering_key: Option<Part>,
    pub event_time: Option<u64>,
    pub null_value: Option<bool>,
    pub null_partition_key: Option<bool>,
}
