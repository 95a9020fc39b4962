// The replays (document 01, 'receipts, errors, snapshot, replay').
ghost use Rattle.std.specs.Prelude.{◌≡◌, ◌<◌, ◌^◌, [], map};
ghost use Rattle.laws.specs.Lists.{front_all, keeping};
ghost use Rattle.laws.specs.Numbers.{add_sat};
ghost use Rattle.queue.specs.Queue.{with_out, with_pending};
ghost use Rattle.queue.specs.Sizes.{pending_size};
ghost use Rattle.queue.specs.Run.{replay, resend};
ghost use Rattle.queue.specs.Tables.{frames_for, fronted, mark};
ghost use Rattle.queue.specs.Told.{Kept, told};
ghost use Rattle.producer.specs.Meets.{Meets};
ghost use Rattle.producer.specs.Replay.{frame_id};
ghost use Rattle.rows.specs.Entry.{decode_entry};
ghost use Rattle.tables.specs.Picked.{Lists};
ghost use Rattle.tables.specs.Unborne.{free};
ghost use Rattle.producer.specs.View.{view};

use crate::answer::Answered;
use crate::state::ProducerState;
use rows::entry::OpSendRow;
use rules::rings::Rings;
use tables::entries::{all_well_formed, frame_again, frames_of};
use tables::list::Listed;
use tables::pick::Choice;
use tables::pushes::frames_for;
use tables::unborne::Unborne;
use types::error::ProducerError;
use types::types::SequenceId;

impl ProducerState {
    // The frames of the entries in front of those that wait, in order: the last entry's go first.
    fn front_frames(&mut self, ops: &[OpSendRow])
        requires { self.old.core.rings.waiting < 2 ^ 64 }
        ensures { view self.new ≡ with_out (fronted (map decode_entry ops.now) (view self.old).out) (view self.old) }
    {
        for row in ops.iter().rev() {
            let op = row.decode();
            let p = self
                .core
                .decode()
                .front(frame_again(op), frames_of(op.publish.replay));
            self.store_core(p.core);
            self.store_frame(p.put);
        }
    }

    // The entries in front of those that are pending, in order.
    fn front_entries(&mut self, ops: &[OpSendRow])
        ensures { view self.new ≡ with_pending (front_all pending_size (map mark (map decode_entry ops.now)) (view self.old).pending) (view self.old) }
    {
        for row in ops.iter().rev() {
            let op = row.decode();
            let p = self.core.decode().front_entry(op);
            self.store_core(p.core);
            self.store_entry(p.put);
        }
    }

    // The index is rebuilt: every id is in it.
    fn mark_all(&mut self)
        ensures { view self.new ≡ with_pending (map mark (view self.old).pending) (view self.old) }
    {
        self.pending_marks = [1; Rings::PENDING];
    }

    // The ids of the waiting frames.
    fn waiting_ids(&self) -> Listed<SequenceId, { Rings::OUTBOUND }>
        ensures { Lists (map frame_id (view self.now).out.frames) result }
    {
        let ring = self.core.rings.decode().outbound;
        let len = ring.count();
        let mut items = [SequenceId(0); Rings::OUTBOUND];
        for i in 0..len {
            items[i] = self.outbound[ring.slot(i)].sequence_id;
        }
        Listed { items, len }
    }

    // How many frames the entries have that bear none of the ids. A sum that would stop is refused all the same.
    fn unborne_frames(&self, ids: &[SequenceId]) -> usize
        ensures { result ≡ add_sat 0 (frames_for (keeping (free ids.now) (view self.now).pending)) }
    {
        let choice = Unborne { ids };
        let n = self.core.rings.decode().pending.count();
        let mut sum: usize = 0;
        for i in 0..n {
            let row = self.row_at(i);
            let more = if choice.chooses(&row) {
                frames_of(row.publish.replay.decode())
            } else {
                0
            };
            sum = sum.saturating_add(more);
        }
        sum
    }

    // Their frames in front of those that wait, in order: the last entry's go first.
    fn front_unborne(&mut self, ids: &[SequenceId])
        requires { self.old.core.rings.waiting < 2 ^ 64 }
        ensures { view self.new ≡ with_out (fronted (keeping (free ids.now) (view self.old).pending) (view self.old).out) (view self.old) }
    {
        let choice = Unborne { ids };
        let n = self.core.rings.decode().pending.count();
        for i in 0..n {
            let row = self.row_at(n - i - 1);
            if choice.chooses(&row) {
                let one = [row];
                self.front_frames(&one);
            }
        }
    }

    #[inline(never)]
    pub fn resend(&mut self) -> Result<usize, ProducerError>
        ensures meets { Meets [] resend self.old self.new (told result) }
        ensures kept { Kept (told result) self.old self.new }
    {
        let ids = self.waiting_ids();
        let frames = self.unborne_frames(ids.as_slice());
        let count = self.core.decode().replay_count(frames)?;
        self.front_unborne(ids.as_slice());
        Ok(count)
    }

    // Fronts the frames of the entries whose id no waiting frame bears, and answers how many.
    pub fn replay_pending_outbound(mut self) -> Answered<usize>
        ensures meets { Meets [] resend self result.state (told result.answer) }
        ensures kept { Kept (told result.answer) self result.state }
    {
        Answered {
            answer: self.resend(),
            state: self,
        }
    }

    #[inline(never)]
    pub fn replay(&mut self, table: &[OpSendRow]) -> Result<(), ProducerError>
        ensures meets { Meets [] (replay (map decode_entry table.now)) self.old self.new (told result) }
        ensures kept { Kept (told result) self.old self.new }
    {
        self.core
            .decode()
            .replay_answer(all_well_formed(table), table.len(), frames_for(table))?;
        self.mark_all();
        self.front_entries(table);
        self.front_frames(table);
        Ok(())
    }

    // Puts the entries of a table and their frames at the front.
    pub fn replay_snapshots(mut self, table: &[OpSendRow]) -> Answered<()>
        ensures meets { Meets [] (replay (map decode_entry table.now)) self result.state (told result.answer) }
        ensures kept { Kept (told result.answer) self result.state }
    {
        Answered {
            answer: self.replay(table),
            state: self,
        }
    }
}
