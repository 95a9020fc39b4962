// The cases of document 01 and of document 02's headroom, executed: each line is a case's name and what the code answers. The file
// `stdout` has the answers of the documents. The cases that document 01 marks with a star are proved besides, in specs/Rows.antt of
// crate `queue`.
#![tactic(auto)]

mod sends;

ghost use Rattle.std.specs.Prelude.{◌≡◌};
ghost use Rattle.cases.specs.Messages.{message_of};

use std::io;
use types::error::ProducerError;
use types::message::{Part, SingleMessage};
use types::signed::{saturating_sub_one, signed_of};
use types::time::deadline_with_clamp;
use types::types::{MessageId, MessageIdData, SequenceId};
use wire::batch::put_item;
use wire::single::put_single;

fn deadline(rt: &impl Print, name: &str, base: u64, delta: u64) -> io::Result<()> {
    println!(rt; "{name} {}", deadline_with_clamp(base, delta))
}

fn before_next(rt: &impl Print, name: &str, next: SequenceId) -> io::Result<()> {
    println!(rt; "{name} {}", saturating_sub_one(signed_of(next.0)))
}

fn message_id(rt: &impl Print, name: &str, id: Option<MessageIdData>) -> io::Result<()> {
    let MessageId {
        ledger_id,
        entry_id,
        partition,
        batch_index,
        batch_size,
    } = MessageId::of_receipt(id);
    println!(rt; "{name} {ledger_id} {entry_id} {partition} {batch_index} {batch_size}")
}

// A message of the batch: the first `len` bytes of the store, with a partition key.
fn message(len: usize, partition_key: Option<Part>, event_time: Option<u64>) -> SingleMessage
    ensures { result ≡ message_of len partition_key event_time }
{
    SingleMessage {
        payload: Part { start: 0, len },
        partition_key,
        ordering_key: None,
        event_time,
        null_value: None,
        null_partition_key: None,
    }
}

// In hexadecimal, two digits each.
fn bytes(rt: &impl Print, name: &str, s: &[u8]) -> io::Result<()> {
    print!(rt; "{name}")?;
    for byte in s {
        print!(rt; " {byte:02x}")?;
    }
    println!(rt)
}

// One message `quote`: its item of a batch's payload.
fn quote(rt: &impl Print) -> io::Result<()> {
    let mut out = [0; 11];
    let m = message(5, None, None);
    put_item(&mut out, b"quote", m);
    bytes(rt, "B1", &out)
}

// The published vectors of the Protocol Buffers encoding: the string `testing` under tag 2, and the varint 150.
fn published(rt: &impl Print) -> io::Result<()> {
    let mut out = [0; 14];
    let m = message(0, Some(Part { start: 0, len: 7 }), Some(150));
    put_single(&mut out, b"testing", m);
    bytes(rt, "testing 150", &out)
}

fn refusals(rt: &impl Print) -> io::Result<()> {
    print!(rt; "refusals")?;
    for e in [
        ProducerError::Closed,
        ProducerError::PartOutside,
        ProducerError::OverBound,
        ProducerError::OutboundFull,
        ProducerError::HeldFull,
        ProducerError::MessageTooLarge {
            size: 2,
            max_message_size: 1,
        },
        ProducerError::PendingFull,
        ProducerError::SettingOverBound,
        ProducerError::TooShort,
        ProducerError::NoFrame,
        ProducerError::NotAnswerable,
        ProducerError::MalformedEntry,
    ] {
        print!(rt; " {}", e.number())?;
    }
    println!(rt)
}

fn main(rt: HostRuntime) -> io::Result<()> {
    for (name, base, delta) in [
        ("T1", 5, 10),
        ("T2", u64::MAX - 3_600_000, u64::MAX),
        ("T3", u64::MAX, 1),
    ] {
        deadline(&rt, name, base, delta)?;
    }
    let id = MessageIdData {
        ledger_id: 7,
        entry_id: 9,
        partition: None,
        batch_index: None,
        batch_size: None,
    };
    message_id(&rt, "I1", Some(id))?;
    message_id(&rt, "I2", None)?;
    for (name, next) in [("S1", 1), ("S2", 0x8000_0000_0000_0000), ("S3", u64::MAX)] {
        before_next(&rt, name, SequenceId(next))?;
    }
    quote(&rt)?;
    sends::joins_and_is_flushed(&rt)?;
    sends::as_many_chunks_as_frames(&rt)?;
    sends::chunks_under_a_headroom(&rt)?;
    sends::frames_counted_under_a_headroom(&rt)?;
    published(&rt)?;
    refusals(&rt)
}
