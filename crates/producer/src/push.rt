// One more entry, frame or held message, written where it stands, and the scalars that go with it. A full ring stays.
ghost use Rattle.std.specs.Prelude.{◌≡◌};
ghost use Rattle.laws.specs.Lists.{set_at};
ghost use Rattle.plans.specs.Delta.{counted_core};
ghost use Rattle.plans.specs.Send.{publish_of};
ghost use Rattle.producer.specs.Apply.{store_core};
ghost use Rattle.producer.specs.Push.{whole, accepted_state, held_state, pushed_state};
ghost use Rattle.producer.specs.State.{state_of};
ghost use Rattle.rows.specs.Entry.{decode_replay};
ghost use Rattle.rows.specs.Frame.{decode_frame};
ghost use Rattle.rows.specs.Message.{decode_message, decode_single};

use crate::state::ProducerState;
use rows::entry::{PublishRow, ReplayRow};
use rows::frame::FrameRow;
use rows::message::{MessageRow, SingleRow};
use rows::rings::RingRow;
use types::memory_limit::MemoryReservation;
use upkeep::stats::{assigned_ids, counted};

// What a send brings beside its message.
#[derive(Clone, Copy)]
pub struct Given {
    pub reservation: MemoryReservation,
    // For chunks.
    pub uuid: [u8; 16],
    pub publish_time: u64,
    pub now: u64,
}

// A row at its place, if there is one inside the ring.
fn store_at<T: Copy>(slots: &mut [T], place: Option<usize>, row: T)
    ensures { slots.new ≡ set_at place slots.old row }
{
    if let Some(at) = place {
        if at < slots.len() {
            slots[at] = row;
        }
    }
}

impl ProducerState {
    // Messages and bytes of frames that are pushed.
    pub(crate) fn count(&mut self, messages: usize, bytes: usize)
        ensures { state_of self.new ≡ store_core (counted_core messages bytes (state_of self.old).core) (state_of self.old) }
    {
        self.core.counters = counted(self.core.counters, messages, bytes);
    }

    // An entry under the next id, which is answerable.
    pub(crate) fn accept(
        &mut self,
        message: &MessageRow,
        a: Given,
        num_messages: i32,
        replay: ReplayRow,
    )
        ensures { state_of self.new ≡ accepted_state (publish_of (whole (decode_message message.now) a) num_messages (decode_replay replay) (state_of self.old).core) (state_of self.old) }
    {
        let ring = self.core.rings.decode().pending;
        let place = ring.place_behind();
        let uuid = a.uuid;
        let publish = PublishRow {
            enqueued_at: a.now,
            reservation: a.reservation,
            publish_time: a.publish_time,
            producer_name: self.core.settings.name,
            uuid,
            message: *message,
            num_messages,
            replay,
        };
        store_at(&mut self.pending, place, publish);
        store_at(&mut self.pending_ids, place, self.core.ids.next_sequence_id);
        store_at(&mut self.pending_marks, place, 1);
        self.core.rings.pending = RingRow::encode(ring.longer_behind());
        self.core.ids = assigned_ids(self.core.ids);
    }

    // A message more among those held.
    pub(crate) fn hold(&mut self, single: SingleRow)
        ensures { state_of self.new ≡ held_state (decode_single single) (state_of self.old) }
    {
        let ring = self.core.rings.decode().held;
        store_at(&mut self.held, ring.place_behind(), single);
        self.core.rings.held = RingRow::encode(ring.longer_behind());
    }

    // A record of so many frames at the end of those that wait.
    pub(crate) fn push(&mut self, frame: FrameRow, frames: usize)
        ensures { state_of self.new ≡ pushed_state (decode_frame frame) frames (state_of self.old) }
    {
        let ring = self.core.rings.decode().outbound;
        store_at(&mut self.outbound, ring.place_behind(), frame);
        self.core.rings.outbound = RingRow::encode(ring.longer_behind());
        self.core.rings.waiting = self.core.rings.waiting.saturating_add(frames);
    }
}
