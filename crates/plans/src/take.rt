// Taking the front frame (document 01, 'sends').
ghost use Rattle.std.specs.Prelude.{◌≡◌};
ghost use Rattle.plans.specs.Take.{rings_taken, take_planned};

use frames::after::{kind_after, stays};
use frames::answer::answer_of;
use frames::outbound::FrontFrame;
use frames::span::Span;
use rules::rings::Rings;
use types::error::ProducerError;
use types::frame::{FrameKind, FrameRecord};
use types::outbound::OutboundFrame;
use types::types::ProducerHandle;

// Of a frame that goes out.
#[derive(Clone, Copy)]
pub struct TakePlan {
    // Where its payload lies.
    pub span: Span,
    pub rings: Rings,
    // Of what then stands in the front record's slot.
    pub kind: FrameKind,
    pub frame: OutboundFrame,
}

// The front record stays or leaves, and `count` held messages go.
fn taken(rings: Rings, record_stays: bool, count: usize) -> Rings
    ensures { result ≡ rings_taken record_stays count rings }
{
    let outbound = rings.outbound;
    Rings {
        outbound: if record_stays {
            outbound
        } else {
            outbound.without_front(1)
        },
        waiting: rings.waiting.saturating_sub(1),
        held: rings.held.without_front(count),
        ..rings
    }
}

// The front record's first frame goes out, with `count` held messages, into `room` bytes.
#[inline(never)]
pub fn plan_take(
    handle: ProducerHandle,
    rings: Rings,
    front: FrameRecord,
    span: Option<Span>,
    count: usize,
    room: usize,
) -> Result<TakePlan, ProducerError>
    ensures { result ≡ take_planned handle rings front span count room }
{
    let span = answer_of(rings.outbound.len, span, room)?;
    let frame = FrontFrame {
        handle,
        front,
        payload_len: span.len,
    };
    Ok(TakePlan {
        span,
        rings: taken(rings, stays(front.kind), count),
        kind: kind_after(front.kind),
        frame: frame.frame(),
    })
}
