// Frames that wait to be taken.
ghost use Rattle.std.specs.Prelude.{◌≡◌};
ghost use Rattle.types.specs.Empty.{empty_name};
ghost use Rattle.types.specs.Values.{clipped};

use crate::message::OutgoingMessage;
use crate::txn::TxnId;
use crate::types::SequenceId;

// A producer's name: the first `len` of the bytes.
#[derive(Clone, Copy, PartialEq, Eq)]
#[repr(C)]
pub struct ProducerName {
    pub bytes: [u8; ProducerName::MAX_LEN],
    pub len: usize,
}

impl ProducerName {
    // The longest name, also in a message (refusals 3 and 8).
    pub const MAX_LEN: usize = 64;

    pub fn empty() -> ProducerName
        ensures { result ≡ empty_name }
    {
        ProducerName {
            bytes: [0; ProducerName::MAX_LEN],
            len: 0,
        }
    }

    // The same name, with a length of `MAX_LEN` at most.
    pub fn clipped(self) -> ProducerName
        ensures { result ≡ clipped self }
    {
        ProducerName {
            len: self.len.min(ProducerName::MAX_LEN),
            ..self
        }
    }
}

// What a batch frame has of its own. Its messages are held apart from it.
#[derive(Clone, Copy, PartialEq, Eq)]
pub struct BatchFrame {
    pub num_messages: usize,
    // Sum of the payload lengths.
    pub current_size_bytes: usize,
    pub highest_sequence_id: SequenceId,
    pub txn_id: Option<TxnId>,
}

// How a message was cut, and which of its chunks waits next.
#[derive(Clone, Copy, PartialEq, Eq)]
pub struct ChunkedMessageContext {
    pub total_chunks: u32,
    pub next_chunk: u32,
    // Payload bytes of each chunk but the last.
    pub max_chunk_size: u32,
}

#[derive(Clone, Copy, PartialEq, Eq)]
pub enum FrameKind {
    Single,
    Batch(BatchFrame),
    Chunked(ChunkedMessageContext),
}

// A waiting frame, or the waiting chunks of one message, with what its command and metadata need. Of a batch the message
// is blank, and nothing of it is answered.
#[derive(Clone, Copy, PartialEq, Eq)]
pub struct FrameRecord {
    pub sequence_id: SequenceId,
    pub publish_time: u64,
    // The producer's name as it was when the frame was made.
    pub producer_name: ProducerName,
    pub uuid: [u8; 16],
    pub message: OutgoingMessage,
    pub kind: FrameKind,
}
