// A frame as it is handed out: its command and metadata, and how much of the lent buffer its payload takes.
use crate::frame::ProducerName;
use crate::message::Part;
use crate::txn::TxnId;
use crate::types::{MessageId, ProducerHandle, SequenceId};

#[derive(Clone, Copy, PartialEq, Eq)]
pub struct CommandSend {
    pub producer_id: ProducerHandle,
    pub sequence_id: SequenceId,
    pub num_messages: u64,
    pub txn_id: Option<TxnId>,
    pub highest_sequence_id: Option<SequenceId>,
    pub is_chunk: Option<bool>,
    pub message_id: Option<MessageId>,
}

// The message's own name, a part of the store, where that is not empty; else the producer's.
#[derive(Clone, Copy, PartialEq, Eq)]
pub enum FrameName {
    Own(Part),
    Producer(ProducerName),
}

#[derive(Clone, Copy, PartialEq, Eq)]
pub struct MessageMetadata {
    pub producer_name: FrameName,
    pub sequence_id: SequenceId,
    pub publish_time: u64,
    pub partition_key: Option<Part>,
    pub ordering_key: Option<Part>,
    pub schema_version: Option<Part>,
    pub event_time: Option<u64>,
    pub null_value: Option<bool>,
    pub null_partition_key: Option<bool>,
    pub deliver_at_time: Option<i64>,
    pub compression: Option<i32>,
    pub uncompressed_size: Option<u64>,
    pub txn_id: Option<TxnId>,
    pub highest_sequence_id: Option<SequenceId>,
    pub num_messages_in_batch: Option<u64>,
    pub chunk_id: Option<u64>,
    pub num_chunks_from_msg: Option<u64>,
    pub total_chunk_msg_size: Option<u64>,
    // The uuid as 36 characters, of a chunk.
    pub uuid: Option<[u8; 36]>,
}

// The payload is the first `payload_len` bytes of the buffer.
#[derive(Clone, Copy, PartialEq, Eq)]
pub struct OutboundFrame {
    pub command: CommandSend,
    pub metadata: MessageMetadata,
    pub payload_len: usize,
}
