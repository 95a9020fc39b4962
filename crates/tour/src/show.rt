// Frames and messages in words.
use crate::message::Message;
use crate::words::{Given, Mark, Printed, Txn, bytes, messages};
use std::fmt::{self, Display, Formatter};
use std::io;
use types::outbound::{MessageMetadata, OutboundFrame};
use types::types::SequenceId;

#[derive(Clone, Copy)]
struct Kind<'a>(&'a MessageMetadata);

impl Display for Kind<'_> {
    fn fmt<W: fmt::Write>(&self, f: &mut Formatter<W>) -> fmt::Result {
        let m = self.0;
        match (m.num_messages_in_batch, m.chunk_id) {
            (Some(n), _) => write!(f, "batch of {}", messages(n)),
            (None, Some(n)) => write!(
                f,
                "chunk {}{}",
                n.saturating_add(1),
                Given(" of ", m.num_chunks_from_msg)
            ),
            (None, None) => f.write_str("single message"),
        }
    }
}

#[derive(Clone, Copy)]
struct Ids<'a>(&'a MessageMetadata);

impl Display for Ids<'_> {
    fn fmt<W: fmt::Write>(&self, f: &mut Formatter<W>) -> fmt::Result {
        let lowest = self.0.sequence_id.0;
        match self.0.highest_sequence_id {
            Some(SequenceId(highest)) => write!(f, "sequence ids {lowest} to {highest}"),
            None => write!(f, "sequence id {lowest}"),
        }
    }
}

// Its metadata in a line, and its payload in another.
pub fn frame(out: &impl Print, place: usize, f: &OutboundFrame, payload: &[u8]) -> io::Result<()> {
    let m = &f.metadata;
    print!(out;
        "frame {place}: {}, {}{}",
        Kind(m),
        Ids(m),
        Given(", transaction ", m.txn_id.map(Txn))
    )?;
    print!(out;
        ", payload {}{} bytes{}",
        f.payload_len,
        Given(" of ", m.total_chunk_msg_size),
        Given(", uuid ", m.uuid.as_ref().map(|u| Printed(u)))
    )?;
    println!(out; "\n    \"{}\"", Printed(payload))
}

pub fn message(out: &impl Print, id: u64, m: &Message) -> io::Result<()> {
    print!(out;
        "message {id}: {}{}{}{}",
        bytes(m.payload.len()),
        Given(", key ", m.partition_key.map(Printed)),
        Mark(", null key", m.null_partition_key),
        Given(", ordering key ", m.ordering_key.map(Printed))
    )?;
    println!(out;
        "{}{}{} \"{}\"",
        Given(", event time ", m.event_time),
        Mark(", null value", m.null_value),
        Given(", transaction ", m.txn_id.map(Txn)),
        Printed(m.payload)
    )
}
