// What is left of the front record.
ghost use Rattle.std.specs.Prelude.{◌≡◌};
ghost use Rattle.frames.specs.After.{has_next, stays_of, kind_after};

use types::frame::{ChunkedMessageContext, FrameKind};

// Whether another chunk follows the next one.
fn has_next(c: ChunkedMessageContext) -> bool
    ensures { result ≡ has_next c }
{
    c.next_chunk.saturating_add(1) < c.total_chunks
}

// Whether the record stays once its first frame is gone.
pub fn stays(kind: FrameKind) -> bool
    ensures { result ≡ stays_of kind }
{
    matches!(kind, FrameKind::Chunked(c) if has_next(c))
}

// Which frame of the record is next then.
pub fn kind_after(kind: FrameKind) -> FrameKind
    ensures { result ≡ kind_after kind }
{
    match kind {
        FrameKind::Chunked(c) if has_next(c) => FrameKind::Chunked(ChunkedMessageContext {
            next_chunk: c.next_chunk + 1,
            ..c
        }),
        _ => kind,
    }
}
