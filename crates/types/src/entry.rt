// Sends that wait for their receipt.
use crate::frame::ProducerName;
use crate::memory_limit::MemoryReservation;
use crate::message::OutgoingMessage;
use crate::types::SequenceId;

// What a replay pushes again.
#[derive(Clone, Copy, PartialEq, Eq)]
pub enum Replay {
    // Nothing: one frame carries a whole batch.
    Batched,
    Single,
    // The chunks, in the size that the message was cut with.
    Chunked {
        total_chunks: u32,
        max_chunk_size: u32,
    },
}

// A send as it was accepted.
#[derive(Clone, Copy, PartialEq, Eq)]
pub struct Publish {
    pub num_messages: i32,
    pub enqueued_at: u64,
    pub reservation: MemoryReservation,
    pub publish_time: u64,
    pub producer_name: ProducerName,
    pub uuid: [u8; 16],
    pub message: OutgoingMessage,
    pub replay: Replay,
}

// A pending entry.
#[derive(Clone, Copy, PartialEq, Eq)]
pub struct OpSend {
    pub sequence_id: SequenceId,
    // Whether this entry keeps its id in `pending_index`.
    pub answerable: bool,
    pub publish: Publish,
}
