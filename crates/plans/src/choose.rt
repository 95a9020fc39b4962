// The refusals of a send in order, and its way (document 01, 'Who can cause a refusal').
ghost use Rattle.std.specs.Prelude.{◌≡◌, ◌≤◌};
ghost use Rattle.types.specs.Bounds.{longest_payload};
ghost use Rattle.plans.specs.Choose.{chosen_within, chosen};

use crate::state::Core;
use rules::bounds::{message_in, within_bounds};
use rules::rings::{Rings, too_many};
use rules::way::{frames_pushed, held_full, pending_full};
use types::error::ProducerError;
use types::memory_limit::MemoryReservation;
use types::message::OutgoingMessage;
use types::way::Way;

impl Core {
    // The way of a send that 4, 5 and 7 let through.
    fn choose_within(self, m: OutgoingMessage) -> Result<Way, ProducerError>
        requires { m.payload.len ≤ longest_payload }
        ensures { result ≡ chosen_within m self }
    {
        let w = self.way(m);
        if too_many::<{ Rings::OUTBOUND }>(self.rings.waiting, frames_pushed(w)) {
            Err(ProducerError::OutboundFull)
        } else if held_full(w, self.rings.held.len) {
            Err(ProducerError::HeldFull)
        } else if pending_full(w, self.rings.pending.len) {
            Err(ProducerError::PendingFull)
        } else {
            Ok(w)
        }
    }

    // For a store of so many bytes: 1, 2 and 3, and then the others. A send that 6 refuses goes its way, which may flush.
    pub fn choose(
        self,
        store_len: usize,
        m: OutgoingMessage,
        reservation: MemoryReservation,
    ) -> Result<Way, ProducerError>
        ensures { result ≡ chosen store_len m reservation.bytes self }
    {
        let closed = self.settings.switches.closed;
        if closed {
            Err(ProducerError::Closed)
        } else if !message_in(store_len, m) {
            Err(ProducerError::PartOutside)
        } else if !within_bounds(m, reservation) {
            Err(ProducerError::OverBound)
        } else {
            self.choose_within(m)
        }
    }
}
