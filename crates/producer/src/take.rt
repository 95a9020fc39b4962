// Taking the front frame (document 01, 'sends').
ghost use Rattle.std.specs.Prelude.{◌≡◌, length};
ghost use Rattle.queue.specs.Run.{take};
ghost use Rattle.queue.specs.Take.{written};
ghost use Rattle.queue.specs.Told.{Kept};
ghost use Rattle.producer.specs.Meets.{Meets};
ghost use Rattle.producer.specs.Take.{told_frame, OwnParts};
ghost use Rattle.producer.specs.View.{view};

use crate::answer::Answered;
use crate::state::ProducerState;
use frames::held::Held;
use frames::span::{held_count, is_batch, payload_span};
use plans::take::plan_take;
use rows::frame::KindRow;
use rows::rings::RingsRow;
use rules::rings::Ring;
use types::error::ProducerError;
use types::outbound::OutboundFrame;
use wire::copy::copy;

impl ProducerState {
    // Hands out the front frame, with its payload at the start of `buffer`, and moves the state in place.
    #[inline(never)]
    pub fn take(&mut self, store: &[u8], buffer: &mut [u8]) -> Result<OutboundFrame, ProducerError>
        ensures meets { Meets store.now (take (length buffer.old)) self.old self.new (told_frame store.now buffer.new result) }
        ensures buffer_after { buffer.new ≡ written (told_frame store.now buffer.new result) buffer.old }
        ensures own { OwnParts store.now (view self.old) (view self.old).out.frames result }
        ensures kept { Kept (told_frame store.now buffer.new result) self.old self.new }
    {
        let rings = self.core.rings.decode();
        let at = rings.outbound.slot(0);
        let front = self.outbound[at].decode();
        let count = held_count(front.kind, rings.held);
        let held = Held {
            messages: &self.held,
            ring: Ring {
                len: count,
                ..rings.held
            },
        };
        let span = payload_span(front, held, store.len());
        let plan = plan_take(self.core.handle, rings, front, span, count, buffer.len())?;
        if is_batch(front.kind) {
            held.put(buffer, store);
        } else {
            copy(
                buffer,
                &store[plan.span.start..plan.span.start + plan.span.len],
            );
        }
        self.outbound[at].kind = KindRow::encode(plan.kind);
        self.core.rings = RingsRow::encode(plan.rings);
        Ok(plan.frame)
    }

    // The same for a state by value.
    pub fn next_outbound_frame(mut self, store: &[u8], buffer: &mut [u8]) -> Answered<OutboundFrame>
        ensures meets { Meets store.now (take (length buffer.old)) self result.state (told_frame store.now buffer.new result.answer) }
        ensures buffer_after { buffer.new ≡ written (told_frame store.now buffer.new result.answer) buffer.old }
        ensures own { OwnParts store.now (view self) (view self).out.frames result.answer }
        ensures kept { Kept (told_frame store.now buffer.new result.answer) self result.state }
    {
        Answered {
            answer: self.take(store, buffer),
            state: self,
        }
    }
}
