// A frame as it goes over the wire.
use types::message::{Part, SingleMessage};
use types::outbound::MessageMetadata;
use types::txn::TxnId;
use types::types::SequenceId;

// Payload and keys are parts of the bytes taken, and nothing of the store is in it.
#[derive(Clone, Copy)]
pub struct Frame {
    pub sequence_id: SequenceId,
    pub message: SingleMessage,
    pub txn_id: Option<TxnId>,
    pub num_messages_in_batch: Option<u64>,
    pub chunk_id: Option<u64>,
    pub num_chunks_from_msg: Option<u64>,
}

impl Frame {
    pub fn of(
        m: &MessageMetadata,
        payload: Part,
        partition_key: Option<Part>,
        ordering_key: Option<Part>,
    ) -> Frame {
        Frame {
            sequence_id: m.sequence_id,
            message: SingleMessage {
                payload,
                partition_key,
                ordering_key,
                event_time: m.event_time,
                null_value: m.null_value,
                null_partition_key: m.null_partition_key,
            },
            txn_id: m.txn_id,
            num_messages_in_batch: m.num_messages_in_batch,
            chunk_id: m.chunk_id,
            num_chunks_from_msg: m.num_chunks_from_msg,
        }
    }

    // This chunk with the next one joined to it, whose payload stands behind its own; None where another follows.
    pub fn joined(self, next: &Frame) -> Option<Frame> {
        let payload = self.message.payload;
        let more = next.message.payload;
        let follows = next.chunk_id == self.chunk_id.map(|n| n.saturating_add(1))
            && next.num_chunks_from_msg == self.num_chunks_from_msg
            && next.sequence_id == self.sequence_id
            && more.start == payload.start.saturating_add(payload.len);
        let whole = Part {
            len: payload.len.saturating_add(more.len),
            ..payload
        };
        follows.then_some(Frame {
            chunk_id: next.chunk_id,
            message: SingleMessage {
                payload: whole,
                ..self.message
            },
            ..self
        })
    }
}
