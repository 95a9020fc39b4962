// The pending entries.
ghost use Rattle.std.specs.Prelude.{◌≡◌, length, slice_index_or};
ghost use Rattle.rows.specs.Entry.{decode_entry};
ghost use Rattle.tables.specs.Picked.{ListsRows};
ghost use Rattle.producer.specs.View.{view};

use crate::state::ProducerState;
use rows::entry::OpSendRow;
use rules::rings::Rings;
use tables::list::Listed;

impl ProducerState {
    // The entry at a place from the oldest one. The marks are counted as in `place_of`.
    pub(crate) fn row_at(&self, place: usize) -> OpSendRow
        ensures marks { length self.now.pending_marks ≡ Rings.PENDING }
        ensures entry { slice_index_or (view self.now).pending place (decode_entry result) ≡ decode_entry result }
    {
        let at = self.core.rings.decode().pending.slot(place);
        let publish = self.pending[at];
        OpSendRow {
            sequence_id: self.pending_ids[at],
            answerable: self.pending_marks[at],
            publish,
        }
    }

    // The oldest first.
    pub(crate) fn entries(&self) -> Listed<OpSendRow, { Rings::PENDING }>
        ensures { ListsRows (view self.now).pending result }
    {
        let len = self.core.rings.decode().pending.count();
        let mut items = [OpSendRow::blank(); Rings::PENDING];
        for i in 0..len {
            items[i] = self.row_at(i);
        }
        Listed { items, len }
    }
}
