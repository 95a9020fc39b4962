// Drains and the snapshot: pending entries handed out in tables that the caller lends (document 01, 'ids and clocks' and
// 'receipts, errors, snapshot, replay').
ghost use Rattle.std.specs.Prelude.{None, Some};
ghost use Rattle.tables.specs.Picked.{ListsRows, kind_of};
ghost use Rattle.producer.specs.Tables.{Drains, Snaps};
ghost use Rattle.producer.specs.View.{view};

use crate::answer::Answered;
use crate::state::ProducerState;
use rows::entry::OpSendRow;
use rules::rings::Rings;
use tables::copy::copy_entries;
use tables::drain::{fitted, gone_count, unmark_each};
use tables::list::Listed;
use tables::pick::{OfKind, picked};
use tables::scalars::{after_drain, after_snapshot};
use tables::snapshot::{Snapshot, both_fitted};
use types::error::ProducerError;

impl ProducerState {
    // Both drains: the entries that are due at a time, or all, leave, and their ids the index.
    #[inline(never)]
    fn hand_out(
        &mut self,
        due: Option<u64>,
        table: &mut [OpSendRow],
    ) -> Result<usize, ProducerError>
        ensures { Drains due self.old table.old result self.new table.new }
    {
        let pending = self.entries();
        let entries = pending.as_slice();
        let many = gone_count(
            entries,
            self.core.settings.delays.send_timeout.decode(),
            due,
        );
        let count = fitted(many, table.len())?;
        copy_entries(table, &entries[..count]);
        unmark_each(
            &mut self.pending_marks,
            &self.pending_ids,
            &entries[..count],
        );
        let core = after_drain(self.core.decode(), due, count);
        self.store_core(core);
        Ok(count)
    }

    // All entries. Batch and frames are emptied with them.
    pub fn drain(&mut self, table: &mut [OpSendRow]) -> Result<usize, ProducerError>
        ensures { Drains None self.old table.old result self.new table.new }
    {
        self.hand_out(None, table)
    }

    // The same for a state by value.
    pub fn drain_pending_sends(mut self, table: &mut [OpSendRow]) -> Answered<usize>
        ensures { Drains None self table.old result.answer result.state table.new }
    {
        Answered {
            answer: self.drain(table),
            state: self,
        }
    }

    // The entries from the front that are due. Frames and batched messages stay.
    pub fn time_out(&mut self, time: u64, table: &mut [OpSendRow]) -> Result<usize, ProducerError>
        ensures { Drains (Some time) self.old table.old result self.new table.new }
    {
        self.hand_out(Some(time), table)
    }

    // The same for a state by value.
    pub fn drain_timed_out_sends(mut self, time: u64, table: &mut [OpSendRow]) -> Answered<usize>
        ensures { Drains (Some time) self table.old result.answer result.state table.new }
    {
        Answered {
            answer: self.time_out(time, table),
            state: self,
        }
    }

    // The batched entries, or the others.
    fn of_kind(&self, batched: bool) -> Listed<OpSendRow, { Rings::PENDING }>
        ensures { ListsRows (kind_of batched (view self.now).pending) result }
    {
        let pending = self.entries();
        picked(pending.as_slice(), OfKind { batched })
    }

    // All entries: the batched ones are dropped, the others are there for a replay. Batch and frames are emptied, and the
    // broker has to attach the producer anew.
    #[inline(never)]
    pub fn snapshot(
        &mut self,
        dropped: &mut [OpSendRow],
        replay: &mut [OpSendRow],
    ) -> Result<Snapshot, ProducerError>
        ensures { Snaps self.old dropped.old replay.old result self.new dropped.new replay.new }
    {
        let batched = self.of_kind(true);
        let framed = self.of_kind(false);
        let counts = both_fitted(batched.len, framed.len, dropped.len(), replay.len())?;
        copy_entries(dropped, batched.as_slice());
        copy_entries(replay, framed.as_slice());
        let core = after_snapshot(self.core.decode(), counts.dropped);
        self.store_core(core);
        Ok(counts)
    }

    // The same for a state by value.
    pub fn snapshot_pending_sends(
        mut self,
        dropped: &mut [OpSendRow],
        replay: &mut [OpSendRow],
    ) -> Answered<Snapshot>
        ensures { Snaps self dropped.old replay.old result.answer result.state dropped.new replay.new }
    {
        Answered {
            answer: self.snapshot(dropped, replay),
            state: self,
        }
    }
}
