// The stores of a plan. They decide nothing; a place outside its ring stores nothing.
ghost use Rattle.std.specs.Prelude.{◌≡◌};
ghost use Rattle.producer.specs.Apply.{store_core, store_frame, store_entry};
ghost use Rattle.producer.specs.State.{state_of};

use crate::state::{CoreRow, ProducerState};
use plans::delta::Put;
use plans::state::Core;
use rows::entry::PublishRow;
use rows::frame::FrameRow;
use types::entry::OpSend;
use types::frame::FrameRecord;

impl ProducerState {
    pub(crate) fn store_core(&mut self, core: Core)
        ensures { state_of self.new ≡ store_core core (state_of self.old) }
    {
        self.core = CoreRow::encode(core);
    }

    pub(crate) fn store_frame(&mut self, put: Option<Put<FrameRecord>>)
        ensures { state_of self.new ≡ store_frame put (state_of self.old) }
    {
        if let Some(p) = put {
            let row = Put {
                at: p.at,
                value: FrameRow::encode(p.value),
            };
            row.store(&mut self.outbound);
        }
    }

    // The three parts of an entry go to one place.
    pub(crate) fn store_entry(&mut self, put: Option<Put<OpSend>>)
        ensures { state_of self.new ≡ store_entry put (state_of self.old) }
    {
        if let Some(p) = put {
            if p.at < self.pending.len() {
                self.pending[p.at] = PublishRow::encode(p.value.publish);
                self.pending_ids[p.at] = p.value.sequence_id;
                self.pending_marks[p.at] = p.value.answerable as u8;
            }
        }
    }
}
