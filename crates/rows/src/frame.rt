// Frames that wait to be taken.
ghost use Rattle.std.specs.Prelude.{◌≡◌};
ghost use Rattle.types.specs.declared.frame.FrameKind.TheVariants.{Single};
ghost use Rattle.rows.specs.Frame.{decode_kind, decode_frame};

use crate::message::MessageRow;
use crate::optional::OptionalTxnId;
use types::frame::{BatchFrame, ChunkedMessageContext, FrameKind, FrameRecord, ProducerName};
use types::types::SequenceId;

// 0 a single message, 1 a batch, anything else chunks. What another kind has of its own means nothing.
#[derive(Clone, Copy)]
#[repr(C)]
pub struct KindRow {
    pub kind: u32,
    pub total_chunks: u32,
    pub next_chunk: u32,
    pub max_chunk_size: u32,
    pub num_messages: usize,
    pub current_size_bytes: usize,
    pub highest_sequence_id: SequenceId,
    pub txn_id: OptionalTxnId,
}

#[derive(Clone, Copy)]
#[repr(C)]
pub struct FrameRow {
    pub sequence_id: SequenceId,
    pub publish_time: u64,
    pub producer_name: ProducerName,
    pub uuid: [u8; 16],
    pub message: MessageRow,
    pub kind: KindRow,
}

impl KindRow {
    pub fn decode(self) -> FrameKind
        ensures { result ≡ decode_kind self }
    {
        if self.kind == 0 {
            FrameKind::Single
        } else if self.kind == 1 {
            FrameKind::Batch(BatchFrame {
                num_messages: self.num_messages,
                current_size_bytes: self.current_size_bytes,
                highest_sequence_id: self.highest_sequence_id,
                txn_id: self.txn_id.decode(),
            })
        } else {
            FrameKind::Chunked(ChunkedMessageContext {
                total_chunks: self.total_chunks,
                next_chunk: self.next_chunk,
                max_chunk_size: self.max_chunk_size,
            })
        }
    }

    // Of a single message.
    fn single() -> KindRow
        ensures { decode_kind result ≡ Single }
    {
        KindRow {
            kind: 0,
            total_chunks: 0,
            next_chunk: 0,
            max_chunk_size: 0,
            num_messages: 0,
            current_size_bytes: 0,
            highest_sequence_id: SequenceId(0),
            txn_id: OptionalTxnId::encode(None),
        }
    }

    pub fn encode(k: FrameKind) -> KindRow
        ensures { decode_kind result ≡ k }
    {
        match k {
            FrameKind::Single => KindRow::single(),
            FrameKind::Batch(b) => KindRow {
                kind: 1,
                num_messages: b.num_messages,
                current_size_bytes: b.current_size_bytes,
                highest_sequence_id: b.highest_sequence_id,
                txn_id: OptionalTxnId::encode(b.txn_id),
                ..KindRow::single()
            },
            FrameKind::Chunked(c) => KindRow {
                kind: 2,
                total_chunks: c.total_chunks,
                next_chunk: c.next_chunk,
                max_chunk_size: c.max_chunk_size,
                ..KindRow::single()
            },
        }
    }
}

impl FrameRow {
    pub fn decode(self) -> FrameRecord
        ensures { result ≡ decode_frame self }
    {
        let uuid = self.uuid;
        FrameRecord {
            sequence_id: self.sequence_id,
            publish_time: self.publish_time,
            producer_name: self.producer_name,
            uuid,
            message: self.message.decode(),
            kind: self.kind.decode(),
        }
    }

    pub fn encode(r: FrameRecord) -> FrameRow
        ensures { decode_frame result ≡ r }
    {
        let uuid = r.uuid;
        FrameRow {
            sequence_id: r.sequence_id,
            publish_time: r.publish_time,
            producer_name: r.producer_name,
            uuid,
            message: MessageRow::encode(r.message),
            kind: KindRow::encode(r.kind),
        }
    }
}
