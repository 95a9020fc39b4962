// The answers of the operations (docs/SCRIPT.md, 'The answers').
#![tactic(auto, using(crate::proofs::Writings::both))]

ghost use Rattle.script.specs.Output.{Writes};

use crate::operation::Call;
use crate::write::{Output, Put, Stored, low_half, put_txn_halves};
use plans::state::Core;
use rows::entry::OpSendRow;
use types::answer::SendDecision;
use types::batch::BatchContainer;
use types::entry::{OpSend, Publish, Replay};
use types::error::ProducerError;
use types::frame::ProducerName;
use types::message::OutgoingMessage;
use types::outbound::{CommandSend, FrameName, MessageMetadata};
use types::settings::{Delays, Limits, ProducerSettings};
use types::stats::{Counters, ProducerStats, SequenceIds};
use types::types::{MessageIdData, ProducerHandle, SequenceId};

// What a run ends with.
#[derive(Clone, Copy, PartialEq, Eq)]
pub enum Ending {
    NoRoom = 0xFD,
    Malformed = 0xFE,
    End = 0xFF,
}

impl Put for Ending {
    fn put(self, out: &mut Output) {
        out.put(self as u8);
    }
}

// The number; 6 answers both sizes too.
impl Put for ProducerError {
    fn put(self, out: &mut Output) {
        out.put((self.number() % 256) as u8);
        if let ProducerError::MessageTooLarge {
            size,
            max_message_size,
        } = self
        {
            out.put((size, max_message_size));
        }
    }
}

// 0 and the values, or the refusal.
impl<T: Put> Put for Result<T, ProducerError> {
    fn put(self, out: &mut Output) {
        match self {
            Ok(v) => out.put((0u8, v)),
            Err(e) => out.put(e),
        }
    }
}

// What an operation answers that is not refused.
pub fn put_done<T: Put>(out: &mut Output, call: Call, v: T)
    ensures { Writes out.old out.new }
{
    out.put((call, 0u8, v));
}

impl Put for SendDecision {
    fn put(self, out: &mut Output) {
        match self {
            SendDecision::Batched => out.put(0u8),
            SendDecision::Emit { count } => out.put((1u8, count)),
        }
    }
}

impl Put for Counters {
    fn put(self, out: &mut Output) {
        out.put((self.total_msgs_sent, self.total_bytes_sent));
        out.put((self.total_send_failed, self.total_acks_received));
    }
}

impl Put for ProducerStats {
    fn put(self, out: &mut Output) {
        out.put((self.counters, self.pending_queue_size));
    }
}

impl Put for ProducerHandle {
    fn put(self, out: &mut Output) {
        out.put(self.0);
    }
}

impl Put for SequenceId {
    fn put(self, out: &mut Output) {
        out.put(self.0);
    }
}

// ---- entries ----

impl Put for ProducerName {
    fn put(self, out: &mut Output) {
        out.put(&self.bytes[..self.len.min(ProducerName::MAX_LEN)]);
    }
}

impl Put for OutgoingMessage {
    fn put(self, out: &mut Output) {
        out.put((
            self.payload,
            self.partition_key,
            self.ordering_key,
            self.schema_version,
        ));
        out.put((
            self.producer_name,
            self.event_time,
            self.null_value,
            self.null_partition_key,
        ));
        out.put((
            self.deliver_at_time,
            self.compression,
            self.uncompressed_size,
            self.num_messages,
        ));
        out.put((self.txn_id, self.source_message_id));
    }
}

impl Put for Replay {
    fn put(self, out: &mut Output) {
        match self {
            Replay::Batched => out.put(0u8),
            Replay::Single => out.put(1u8),
            Replay::Chunked {
                total_chunks,
                max_chunk_size,
            } => out.put((2u8, max_chunk_size, total_chunks)),
        }
    }
}

// Of a batched entry nothing stands behind its kind.
impl Put for Publish {
    fn put(self, out: &mut Output) {
        out.put((
            self.num_messages,
            self.enqueued_at,
            self.reservation.bytes,
            self.replay,
        ));
        if self.replay != Replay::Batched {
            out.put(self.message);
            out.put((self.publish_time, self.producer_name));
            out.put_raw(&self.uuid);
        }
    }
}

impl Put for OpSend {
    fn put(self, out: &mut Output) {
        out.put(self.sequence_id);
        out.put(self.publish);
    }
}

// All of some entries, without their count.
impl Put for &[OpSendRow] {
    fn put(self, out: &mut Output) {
        for row in self {
            out.put(row.decode());
        }
    }
}

// ---- frames ----

impl Put for CommandSend {
    fn put(self, out: &mut Output) {
        out.put((
            self.producer_id,
            self.sequence_id,
            Some(low_half(self.num_messages)),
        ));
        put_txn_halves(out, self.txn_id);
        out.put((
            self.highest_sequence_id,
            self.is_chunk,
            self.message_id.map(MessageIdData::from),
        ));
    }
}

// The metadata in the order of its tags, a few at a time.
fn put_metadata_start(out: &mut Output, store: &[u8], m: MessageMetadata)
    ensures { Writes out.old out.new }
{
    match m.producer_name {
        FrameName::Own(part) => out.put(Stored { store, part }),
        FrameName::Producer(name) => out.put(name),
    }
    out.put((m.sequence_id, m.publish_time));
    out.put(m.partition_key.map(|part| Stored { store, part }));
    out.put((
        m.compression,
        m.uncompressed_size.map(low_half),
        m.num_messages_in_batch.map(low_half),
        m.event_time,
    ));
}

fn put_metadata_end(out: &mut Output, m: MessageMetadata)
    ensures { Writes out.old out.new }
{
    put_txn_halves(out, m.txn_id);
    out.put((m.highest_sequence_id, m.null_value));
    out.put(m.uuid.as_ref().map(|text| text.as_slice()));
    out.put((
        m.num_chunks_from_msg.map(low_half),
        m.total_chunk_msg_size.map(low_half),
        m.chunk_id.map(low_half),
        m.null_partition_key,
    ));
}

pub fn put_metadata(out: &mut Output, store: &[u8], m: MessageMetadata)
    ensures { Writes out.old out.new }
{
    put_metadata_start(out, store, m);
    out.put(m.schema_version.map(|part| Stored { store, part }));
    out.put(m.ordering_key.map(|part| Stored { store, part }));
    out.put(m.deliver_at_time);
    put_metadata_end(out, m);
}

// ---- the dump's scalars ----

impl Put for Limits {
    fn put(self, out: &mut Output) {
        out.put((
            self.max_message_size,
            self.max_batch_size_bytes,
            self.max_messages_in_batch,
        ));
    }
}

impl Put for Delays {
    fn put(self, out: &mut Output) {
        out.put((self.send_timeout, self.batching_max_publish_delay));
    }
}

impl Put for ProducerSettings {
    fn put(self, out: &mut Output) {
        out.put((self.name, self.limits));
        out.put((
            self.switches.batching_enabled,
            self.switches.chunking_enabled,
        ));
        out.put((
            self.delays,
            self.switches.broker_ready,
            self.switches.closed,
        ));
    }
}

// Of an empty batch the rest means nothing.
impl Put for BatchContainer {
    fn put(self, out: &mut Output) {
        out.put(self.len);
        if self.len == 0 {
            out.put((0u64, 0u32));
        } else {
            out.put((
                self.current_size_bytes,
                Some(self.lowest_sequence_id),
                Some(self.highest_sequence_id),
            ));
            out.put((Some(self.first_added_at), self.txn_id));
        }
    }
}

impl Put for SequenceIds {
    fn put(self, out: &mut Output) {
        out.put((
            self.next_sequence_id,
            self.last_sequence_id_pushed,
            self.last_sequence_id_published,
        ));
    }
}

// All of a dump but the pending entries; the deadline is that of the front one.
pub fn put_core(out: &mut Output, c: Core, send_deadline: Option<u64>)
    ensures { Writes out.old out.new }
{
    out.put((c.handle, c.settings, c.ids, c.counters));
    out.put((c.rings.waiting, c.rings.held.count(), c.batch));
    out.put((send_deadline, c.next_batch_deadline()));
}
