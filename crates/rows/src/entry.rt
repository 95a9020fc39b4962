// Sends that wait for their receipt.
ghost use Rattle.std.specs.Prelude.{◌≡◌};
ghost use Rattle.rules.specs.Blank.{no_entry};
ghost use Rattle.rows.specs.Entry.{decode_replay, decode_publish, decode_entry};

use crate::message::MessageRow;
use rules::blank::no_entry;
use types::entry::{OpSend, Publish, Replay};
use types::frame::ProducerName;
use types::memory_limit::MemoryReservation;
use types::types::SequenceId;

// 0 batched, 1 single, anything else chunked.
#[derive(Clone, Copy)]
#[repr(C)]
pub struct ReplayRow {
    pub kind: u32,
    pub total_chunks: u32,
    pub max_chunk_size: u32,
}

#[derive(Clone, Copy)]
#[repr(C)]
pub struct PublishRow {
    pub enqueued_at: u64,
    pub reservation: MemoryReservation,
    pub publish_time: u64,
    pub producer_name: ProducerName,
    pub uuid: [u8; 16],
    pub message: MessageRow,
    pub num_messages: i32,
    pub replay: ReplayRow,
}

// An entry in a table.
#[derive(Clone, Copy)]
#[repr(C)]
pub struct OpSendRow {
    pub sequence_id: SequenceId,
    // Not 0 where the entry keeps its id in `pending_index`.
    pub answerable: u8,
    pub publish: PublishRow,
}

impl ReplayRow {
    pub fn decode(self) -> Replay
        ensures { result ≡ decode_replay self }
    {
        if self.kind == 0 {
            Replay::Batched
        } else if self.kind == 1 {
            Replay::Single
        } else {
            Replay::Chunked {
                total_chunks: self.total_chunks,
                max_chunk_size: self.max_chunk_size,
            }
        }
    }

    pub fn encode(r: Replay) -> ReplayRow
        ensures { decode_replay result ≡ r }
    {
        match r {
            Replay::Batched => ReplayRow {
                kind: 0,
                total_chunks: 0,
                max_chunk_size: 0,
            },
            Replay::Single => ReplayRow {
                kind: 1,
                total_chunks: 0,
                max_chunk_size: 0,
            },
            Replay::Chunked {
                total_chunks,
                max_chunk_size,
            } => ReplayRow {
                kind: 2,
                total_chunks,
                max_chunk_size,
            },
        }
    }
}

impl PublishRow {
    pub fn decode(self) -> Publish
        ensures { result ≡ decode_publish self }
    {
        let uuid = self.uuid;
        Publish {
            num_messages: self.num_messages,
            enqueued_at: self.enqueued_at,
            reservation: self.reservation,
            publish_time: self.publish_time,
            producer_name: self.producer_name,
            uuid,
            message: self.message.decode(),
            replay: self.replay.decode(),
        }
    }

    pub fn encode(p: Publish) -> PublishRow
        ensures { decode_publish result ≡ p }
    {
        let uuid = p.uuid;
        PublishRow {
            enqueued_at: p.enqueued_at,
            reservation: p.reservation,
            publish_time: p.publish_time,
            producer_name: p.producer_name,
            uuid,
            message: MessageRow::encode(p.message),
            num_messages: p.num_messages,
            replay: ReplayRow::encode(p.replay),
        }
    }
}

impl OpSendRow {
    // What stands where a table was not written.
    pub fn blank() -> OpSendRow
        ensures { decode_entry result ≡ no_entry }
    {
        OpSendRow::encode(no_entry())
    }

    pub fn decode(self) -> OpSend
        ensures { result ≡ decode_entry self }
    {
        OpSend {
            sequence_id: self.sequence_id,
            answerable: self.answerable != 0,
            publish: self.publish.decode(),
        }
    }

    pub fn encode(op: OpSend) -> OpSendRow
        ensures { decode_entry result ≡ op }
    {
        OpSendRow {
            sequence_id: op.sequence_id,
            answerable: op.answerable as u8,
            publish: PublishRow::encode(op.publish),
        }
    }
}
