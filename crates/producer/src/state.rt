// The state of a producer: its scalars, and its rings beside them, as rows of numbers that a C or Rust program can hold.
ghost use Rattle.std.specs.Prelude.{◌≡◌};
ghost use Rattle.queue.specs.Queue.{new_queue};
ghost use Rattle.producer.specs.State.{decode_core};
ghost use Rattle.producer.specs.View.{view};

use crate::blank::{FRAME, PUBLISH, SINGLE};
use plans::state::Core;
use rows::batch::BatchRow;
use rows::entry::PublishRow;
use rows::frame::FrameRow;
use rows::message::SingleRow;
use rows::rings::RingsRow;
use rows::settings::SettingsRow;
use rules::rings::Rings;
use types::stats::{Counters, SequenceIds};
use types::types::{ProducerHandle, SequenceId};

// The scalars.
#[derive(Clone, Copy)]
#[repr(C)]
pub struct CoreRow {
    pub handle: ProducerHandle,
    pub settings: SettingsRow,
    pub ids: SequenceIds,
    pub counters: Counters,
    pub batch: BatchRow,
    pub rings: RingsRow,
}

#[derive(Clone, Copy)]
#[repr(C)]
pub struct ProducerState {
    pub core: CoreRow,
    // The waiting frames; the waiting chunks of one message are one record.
    pub outbound: [FrameRow; Rings::OUTBOUND],
    // The messages of the waiting batch frames in order, then those of the open batch.
    pub held: [SingleRow; Rings::HELD],
    // The pending entries: what was sent, and beside it the ids and marks that are searched.
    pub pending: [PublishRow; Rings::PENDING],
    pub pending_ids: [SequenceId; Rings::PENDING],
    // Not 0 where the entry keeps its id in `pending_index`.
    pub pending_marks: [u8; Rings::PENDING],
}

impl CoreRow {
    pub fn decode(self) -> Core
        ensures { result ≡ decode_core self }
    {
        Core {
            handle: self.handle,
            settings: self.settings.decode(),
            ids: self.ids,
            counters: self.counters,
            batch: self.batch.decode(),
            rings: self.rings.decode(),
        }
    }

    pub fn encode(c: Core) -> CoreRow
        ensures { decode_core result ≡ c }
    {
        CoreRow {
            handle: c.handle,
            settings: SettingsRow::encode(c.settings),
            ids: c.ids,
            counters: c.counters,
            batch: BatchRow::encode(c.batch),
            rings: RingsRow::encode(c.rings),
        }
    }
}

impl ProducerState {
    // A new producer in memory that held anything: what lies behind the scalars means nothing yet.
    pub fn reset(&mut self, handle: ProducerHandle)
        ensures { view self.new ≡ new_queue handle }
    {
        self.core = CoreRow::encode(Core::new(handle));
    }

    pub fn new(handle: ProducerHandle) -> ProducerState
        ensures { view result ≡ new_queue handle }
    {
        ProducerState {
            core: CoreRow::encode(Core::new(handle)),
            outbound: [FRAME; Rings::OUTBOUND],
            held: [SINGLE; Rings::HELD],
            pending: [PUBLISH; Rings::PENDING],
            pending_ids: [SequenceId(0); Rings::PENDING],
            pending_marks: [0; Rings::PENDING],
        }
    }
}
