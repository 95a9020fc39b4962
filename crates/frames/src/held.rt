// The held messages of the batch frames (document 01, 'sends').
ghost use Rattle.std.specs.Prelude.{◌≡◌, true, length, slice_index_or};
ghost use Rattle.wire.specs.Batch.{batch_payload};
ghost use Rattle.wire.specs.Buffer.{Room, Puts};
ghost use Rattle.queue.specs.Frame.{all_in};
ghost use Rattle.rules.specs.declared.rings.TheConstants.Rings.{HELD};
ghost use Rattle.frames.specs.Span.{batch_span};

use crate::span::{Span, empty_span, with_item};
use rows::message::SingleRow;
use rules::rings::{Ring, Rings};
use types::message::SingleMessage;
use wire::batch::put_item;

// The messages of one batch frame, which are the first of the held ring.
#[derive(Clone, Copy)]
pub struct Held<'a> {
    pub messages: &'a [SingleRow; Rings::HELD],
    pub ring: Ring<{ Rings::HELD }>,
    ghost full: { length messages.now ≡ HELD },
}

impl<'a> Held<'a> {
    ghost use Rattle.frames.specs.Held.{held_of};

    // The one at a place from the first.
    fn message(self, place: usize) -> SingleMessage
        ensures { slice_index_or (held_of self.entry) place result ≡ result }
    {
        self.messages[self.ring.slot(place)].decode()
    }

    // The payload that their items make.
    pub fn span(self, n: usize) -> Option<Span>
        ensures { result ≡ batch_span n (held_of self.entry) }
    {
        let mut span = empty_span();
        for i in 0..self.ring.count() {
            span = with_item(span, self.message(i), n)?;
        }
        Some(span)
    }

    // Writes their items to the start of `out`.
    pub fn put(self, out: &mut [u8], store: &[u8]) -> usize
        requires { (all_in (length store.now) (held_of self) ≡ true) × Room (batch_payload store.now (held_of self)) out.old }
        ensures { Puts (batch_payload store.now (held_of self.entry)) out.old out.new result }
    {
        let mut to = 0;
        for i in 0..self.ring.count() {
            to += put_item(&mut out[to..], store, self.message(i));
        }
        to
    }
}
