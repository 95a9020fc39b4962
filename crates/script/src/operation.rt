// The operations of a script: how long each is, whether it is well formed, and the most bytes that its answer can have
// (docs/SCRIPT.md, 'The script').
ghost use Rattle.std.specs.Prelude.{◌≡◌, ◌*◌, ◌<◌, ◌≤◌, IfSome};
ghost use Rattle.script.specs.Calls.{Decodes};

use crate::read::Place;
use crate::write::{Output, Put};
use rules::rings::Rings;
use types::frame::ProducerName;
use types::message::OutgoingMessage;
use types::types::ProducerHandle;

// What an operation calls, with its code.
#[derive(Clone, Copy, PartialEq, Eq)]
pub enum Call {
    QueueSendReserved = 0x01,
    QueueSend = 0x02,
    FlushBatch = 0x03,
    NextOutboundFrame = 0x04,
    ApplyReceipt = 0x05,
    ApplySendError = 0x06,
    DrainTimedOutSends = 0x07,
    DrainPendingSends = 0x08,
    SnapshotPendingSends = 0x09,
    ReplaySnapshots = 0x0A,
    ReplayLastSnapshot = 0x0B,
    ReplayPendingOutbound = 0x0C,
    SetInitialSequenceId = 0x0D,
    SetName = 0x10,
    SetMaxMessageSize = 0x11,
    SetMaxBatchSizeBytes = 0x12,
    SetMaxMessagesInBatch = 0x13,
    SetBatchingEnabled = 0x14,
    SetChunkingEnabled = 0x15,
    SetSendTimeout = 0x16,
    SetBatchingMaxPublishDelay = 0x17,
    SetBrokerReady = 0x18,
    Close = 0x19,
    SetMetadataReservation = 0x1A,
    NextSendDeadline = 0x20,
    NextBatchDeadline = 0x21,
    BatchDeadlineElapsed = 0x22,
    CanAddToBatch = 0x23,
    OutboundLen = 0x24,
    Stats = 0x25,
    Dump = 0x26,
    MetadataReservation = 0x27,
}

// A code of no operation.
#[derive(Clone, Copy, PartialEq, Eq)]
pub struct UnknownCode(pub u8);

impl TryFrom<u8> for Call {
    type Error = UnknownCode;

    ghost try_from_gives = { Decodes };

    fn try_from(code: u8) -> Result<Self, UnknownCode> {
        match code {
            0x01 => Ok(Call::QueueSendReserved),
            0x02 => Ok(Call::QueueSend),
            0x03 => Ok(Call::FlushBatch),
            0x04 => Ok(Call::NextOutboundFrame),
            0x05 => Ok(Call::ApplyReceipt),
            0x06 => Ok(Call::ApplySendError),
            0x07 => Ok(Call::DrainTimedOutSends),
            0x08 => Ok(Call::DrainPendingSends),
            0x09 => Ok(Call::SnapshotPendingSends),
            0x0A => Ok(Call::ReplaySnapshots),
            0x0B => Ok(Call::ReplayLastSnapshot),
            0x0C => Ok(Call::ReplayPendingOutbound),
            0x0D => Ok(Call::SetInitialSequenceId),
            0x10 => Ok(Call::SetName),
            0x11 => Ok(Call::SetMaxMessageSize),
            0x12 => Ok(Call::SetMaxBatchSizeBytes),
            0x13 => Ok(Call::SetMaxMessagesInBatch),
            0x14 => Ok(Call::SetBatchingEnabled),
            0x15 => Ok(Call::SetChunkingEnabled),
            0x16 => Ok(Call::SetSendTimeout),
            0x17 => Ok(Call::SetBatchingMaxPublishDelay),
            0x18 => Ok(Call::SetBrokerReady),
            0x19 => Ok(Call::Close),
            0x1A => Ok(Call::SetMetadataReservation),
            0x20 => Ok(Call::NextSendDeadline),
            0x21 => Ok(Call::NextBatchDeadline),
            0x22 => Ok(Call::BatchDeadlineElapsed),
            0x23 => Ok(Call::CanAddToBatch),
            0x24 => Ok(Call::OutboundLen),
            0x25 => Ok(Call::Stats),
            0x26 => Ok(Call::Dump),
            0x27 => Ok(Call::MetadataReservation),
            _ => Err(UnknownCode(code)),
        }
    }
}

impl Put for Call {
    fn put(self, out: &mut Output) {
        out.put(self as u8);
    }
}

// Bytes with the code, of a call without a name or a table; of those, up to their count.
fn fixed_size(call: Call) -> usize
    ensures { 0 < result }
{
    match call {
        Call::QueueSendReserved => 213,
        Call::QueueSend => 205,
        Call::FlushBatch | Call::NextOutboundFrame => 17,
        Call::ApplyReceipt => 49,
        Call::ApplySendError => 21,
        Call::DrainTimedOutSends | Call::CanAddToBatch => 13,
        Call::DrainPendingSends
        | Call::ReplaySnapshots
        | Call::ReplayLastSnapshot
        | Call::SetName => 5,
        Call::SnapshotPendingSends
        | Call::SetInitialSequenceId
        | Call::SetMaxMessageSize
        | Call::SetMaxBatchSizeBytes
        | Call::SetMaxMessagesInBatch
        | Call::SetMetadataReservation
        | Call::BatchDeadlineElapsed => 9,
        Call::SetSendTimeout | Call::SetBatchingMaxPublishDelay => 10,
        Call::SetBatchingEnabled | Call::SetChunkingEnabled | Call::SetBrokerReady => 2,
        _ => 1,
    }
}

// An entry of an explicit table has so many bytes.
pub const ENTRY: usize = 290;

// A table has at most so many, one more than can be pending: enough for a replay that 7 refuses.
pub const MOST_ENTRIES: usize = Rings::PENDING + 1;

// Bytes of the name or of the table's entries, which follow. A table can have too many.
fn more_size(call: Call, count: usize) -> Option<usize> {
    match call {
        Call::ReplaySnapshots if MOST_ENTRIES < count => None,
        Call::ReplaySnapshots => Some(ENTRY * count),
        Call::SetName => Some(count),
        _ => Some(0),
    }
}

// A table's entries, at their count.
pub fn entries(place: Place) -> &[u8] {
    place
        .behind(4)
        .bytes(ENTRY.saturating_mul(place.get::<u32>() as usize))
}

// One test for all the bytes of a message, so that none is tested by itself.
fn message_well_formed(place: Place) -> bool {
    match place.rest().first_chunk::<164>() {
        None => false,
        Some(m) => {
            (m[16] <= 1)
                & (m[33] <= 1)
                & (m[50] <= 1)
                & (m[83] <= 1)
                & maybe_flag(m[92], m[93])
                & maybe_flag(m[94], m[95])
                & (m[96] <= 1)
                & (m[105] <= 1)
                & (m[118] <= 1)
                & (m[135] <= 1)
        }
    }
}

fn flag(place: Place) -> bool {
    place.get::<u8>() <= 1
}

// A mark that may be absent: what is skipped may be anything.
fn maybe_flag(present: u8, mark: u8) -> bool {
    (present == 0) | ((present == 1) & (mark <= 1))
}

fn receipt_well_formed(place: Place) -> bool {
    let inner = flag(place.behind(17)) & flag(place.behind(22)) & flag(place.behind(27));
    flag(place) & (!place.get::<bool>() | inner)
}

fn entry_well_formed(place: Place) -> bool {
    place.behind(28).get::<u8>() <= 2 && message_well_formed(place.behind(37))
}

fn arguments_well_formed(place: Place, call: Call) -> bool {
    let arguments = place.behind(1);
    match call {
        Call::QueueSendReserved | Call::QueueSend => message_well_formed(arguments),
        Call::ApplyReceipt => receipt_well_formed(place.behind(17)),
        Call::ReplaySnapshots => entries(arguments)
            .chunks_exact(ENTRY)
            .all(|entry| entry_well_formed(Place::start(entry))),
        Call::SetBatchingEnabled
        | Call::SetChunkingEnabled
        | Call::SetSendTimeout
        | Call::SetBatchingMaxPublishDelay
        | Call::SetBrokerReady => flag(arguments),
        _ => true,
    }
}

fn entries_room(count: u64) -> u64
    ensures { result ≤ Rings.PENDING * 293 }
{
    count.min(Rings::PENDING as u64) * 293
}

// The most bytes of a frame's answer beside its payload: three parts of at most a key's length, a name, and what has a length of its own.
fn frame_room() -> u64
    ensures { result ≡ 3383 }
{
    247 + 3 * OutgoingMessage::MAX_KEY as u64 + ProducerName::MAX_LEN as u64
}

// The most bytes of an answer.
fn room_of(place: Place, call: Call) -> u64 {
    let arguments = place.behind(1);
    match call {
        Call::QueueSendReserved | Call::QueueSend => 18,
        Call::FlushBatch
        | Call::ReplayPendingOutbound
        | Call::OutboundLen
        | Call::MetadataReservation => 10,
        Call::NextOutboundFrame => arguments.get::<u64>().saturating_add(frame_room()),
        Call::ApplyReceipt => 323,
        Call::ApplySendError => 299,
        Call::DrainTimedOutSends => 6 + entries_room(place.behind(9).get::<u32>() as u64),
        Call::DrainPendingSends => 6 + entries_room(arguments.get::<u32>() as u64),
        Call::SnapshotPendingSends => {
            let lengths = arguments.get::<u32>() as u64 + place.behind(5).get::<u32>() as u64;
            10 + entries_room(lengths)
        }
        Call::NextSendDeadline | Call::NextBatchDeadline => 11,
        Call::BatchDeadlineElapsed | Call::CanAddToBatch => 3,
        Call::Stats => 42,
        Call::Dump => 278 + 294 * Rings::PENDING as u64,
        _ => 2,
    }
}

// What is known of an operation before it is carried out.
#[derive(Clone, Copy)]
pub struct Operation {
    pub call: Call,
    pub size: usize,
    pub room: u64,
}

// None of one that is malformed for its code, its count, its arguments or the script's end.
pub fn operation_at(place: Place) -> Option<Operation>
    ensures { IfSome result (λ o. 0 < o.size) }
{
    let call = Call::try_from(place.get::<u8>()).ok()?;
    let count = place.behind(1).get::<u32>() as usize;
    let size = fixed_size(call).saturating_add(more_size(call, count)?);
    if size <= place.rest().len() && arguments_well_formed(place, call) {
        Some(Operation {
            call,
            size,
            room: room_of(place, call),
        })
    } else {
        None
    }
}

#[derive(Clone, Copy)]
pub struct Head<'a> {
    pub in_place: bool,
    pub handle: ProducerHandle,
    pub store: &'a [u8],
    // Where the operations begin.
    pub operations: Place<'a>,
}

// Where the bytes of the store begin.
pub const STORE: usize = 18;

// The head of a script: its mark, version, drive, handle and store. None of a malformed one.
pub fn head_of(script: &[u8]) -> Option<Head<'_>> {
    let start = Place::start(script);
    let behind = STORE + start.behind(14).get::<u32>() as usize;
    let store = script.get(STORE..behind)?;
    let mark: [u8; 5] = start.get();
    if mark == [0x50, 0x53, 0x51, 0x53, 1] && flag(start.behind(5)) {
        Some(Head {
            in_place: start.behind(5).get(),
            handle: start.behind(6).get(),
            store,
            operations: start.behind(behind),
        })
    } else {
        None
    }
}
