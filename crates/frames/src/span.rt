// Where the payload of the front frame lies (document 01, 'sends').
ghost use Rattle.std.specs.Prelude.{◌≡◌};
ghost use Rattle.frames.specs.Held.{held_of};
ghost use Rattle.frames.specs.Span.{skip_of, piece_len, message_span, empty_span, with_item, is_batch, held_count, span_of};

use crate::held::Held;
use crate::inside::{message_inside, piece_inside, single_inside};
use rules::rings::{Ring, Rings};
use types::frame::{FrameKind, FrameRecord};
use types::message::SingleMessage;
use wire::batch::item_len;

// The payload of a frame of which all that it bears lies in the store.
#[derive(Clone, Copy)]
pub struct Span {
    // Where a message's payload starts in the store.
    pub start: usize,
    pub len: usize,
}

// What of the payload went before.
fn skip_of(kind: FrameKind) -> usize
    ensures { result ≡ skip_of kind }
{
    match kind {
        FrameKind::Chunked(c) => c.next_chunk as usize * c.max_chunk_size as usize,
        _ => 0,
    }
}

fn piece_len(kind: FrameKind, len: usize, skip: usize) -> usize
    ensures { result ≡ piece_len kind len skip }
{
    match kind {
        FrameKind::Chunked(c) => len.saturating_sub(skip).min(c.max_chunk_size as usize),
        _ => len,
    }
}

// Of a frame with a single message or with the next chunk of one.
pub fn message_span(front: FrameRecord, n: usize) -> Option<Span>
    ensures { result ≡ message_span n front }
{
    let payload = front.message.payload;
    let skip = skip_of(front.kind);
    let len = piece_len(front.kind, payload.len, skip);
    let inside = piece_inside(payload.start, skip, len, n) && message_inside(front.message, n);
    inside.then_some(Span {
        start: payload.start.saturating_add(skip),
        len,
    })
}

pub fn is_batch(kind: FrameKind) -> bool
    ensures { result ≡ is_batch kind }
{
    matches!(kind, FrameKind::Batch(_))
}

// How many of the held messages go with the frame.
pub fn held_count(kind: FrameKind, held: Ring<{ Rings::HELD }>) -> usize
    ensures { result ≡ held_count kind held.len }
{
    match kind {
        FrameKind::Batch(b) => b.num_messages.min(held.count()),
        _ => 0,
    }
}

// Of no message.
pub fn empty_span() -> Span
    ensures { result ≡ empty_span }
{
    Span { start: 0, len: 0 }
}

// With one more message of a batch.
pub fn with_item(span: Span, m: SingleMessage, n: usize) -> Option<Span>
    ensures { result ≡ with_item n span m }
{
    single_inside(m, n).then_some(Span {
        len: span.len.saturating_add(item_len(m)),
        ..span
    })
}

pub fn payload_span(front: FrameRecord, held: Held, n: usize) -> Option<Span>
    ensures { result ≡ span_of n front front.kind (held_of held.entry) }
{
    if is_batch(front.kind) {
        held.span(n)
    } else {
        message_span(front, n)
    }
}
