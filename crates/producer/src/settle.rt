// Receipts and errors (document 01, 'receipts, errors, snapshot, replay').
ghost use Rattle.std.specs.Prelude.{◌≡◌, ◌<◌, [], min, map, length};
ghost use Rattle.upkeep.specs.Pending.{searched, located};
ghost use Rattle.laws.specs.Lists.{without};
ghost use Rattle.queue.specs.Queue.{with_pending};
ghost use Rattle.rules.specs.Rings.{without_front, without_last};
ghost use Rattle.queue.specs.Run as run;
ghost use Rattle.queue.specs.Run.{send_error};
ghost use Rattle.queue.specs.Told.{told, Kept};
ghost use Rattle.producer.specs.Meets.{Meets};
ghost use Rattle.producer.specs.Settle.{GapClosed, Settles, decode_entries, decode_settled, key_of, unmarked};
ghost use Rattle.producer.specs.State.{state_of};
ghost use Rattle.producer.specs.View.{view};

use crate::answer::Answered;
use crate::state::ProducerState;
use rows::entry::OpSendRow;
use rows::rings::RingRow;
use rules::rings::Rings;
use types::command::{CommandSendError, CommandSendReceipt};
use types::entry::OpSend;
use types::error::ProducerError;
use types::types::{MessageId, SequenceId};
use upkeep::pending::{Index, bearing, unmark};
use upkeep::stats::published_ids;

// The entry of an answer as the record that its row stands for.
pub fn decode_settled<T: Copy>(
    answer: Result<(OpSendRow, T), ProducerError>,
) -> Result<(OpSend, T), ProducerError>
    ensures { result ≡ decode_settled answer }
{
    match answer {
        Ok((row, value)) => Ok((row.decode(), value)),
        Err(e) => Err(e),
    }
}

impl ProducerState {
    // The entries behind a place move up by one.
    fn move_up(&mut self, place: usize)
        requires { place < min self.old.core.rings.pending.len Rings.PENDING }
        ensures { GapClosed place (without_last Rings.PENDING (state_of self.old).core.rings.pending) (state_of self.old) (state_of self.new) }
    {
        let ring = self.core.rings.decode().pending;
        for i in place..ring.count() - 1 {
            let from = ring.slot(i + 1);
            let to = ring.slot(i);
            self.pending[to] = self.pending[from];
            self.pending_ids[to] = self.pending_ids[from];
            self.pending_marks[to] = self.pending_marks[from];
        }
    }

    // Those in front of it move back by one.
    fn move_back(&mut self, place: usize)
        requires { place < min self.old.core.rings.pending.len Rings.PENDING }
        ensures { GapClosed place (without_front Rings.PENDING 1 (state_of self.old).core.rings.pending) (state_of self.old) (state_of self.new) }
    {
        let ring = self.core.rings.decode().pending;
        for i in 0..place {
            let earlier = ring.slot(place - i - 1);
            let later = ring.slot(place - i);
            self.pending[later] = self.pending[earlier];
            self.pending_ids[later] = self.pending_ids[earlier];
            self.pending_marks[later] = self.pending_marks[earlier];
        }
    }

    // The entry at a place leaves, if there is one. The shorter side moves.
    pub fn remove(&mut self, place: usize)
        ensures { view self.new ≡ with_pending (without (view self.old).pending place) (view self.old) }
    {
        let ring = self.core.rings.decode().pending;
        if place < ring.count() {
            let shorter = if place < ring.count() - place {
                self.move_back(place);
                ring.without_front(1)
            } else {
                self.move_up(place);
                ring.without_last()
            };
            self.core.rings.pending = RingRow::encode(shorter);
        }
    }

    // Where the first entry stands that bears the id, if the id is answerable. How many marks there are is said for callers that
    // have the state by `&mut`, whom the check tells the lengths of four arrays.
    pub fn place_of(&self, id: SequenceId) -> Option<usize>
        ensures marks { length self.now.pending_marks ≡ Rings.PENDING }
        ensures place { result ≡ located id.0 (searched self.now.pending_ids self.now.pending_marks (state_of self.now).core.rings.pending) }
    {
        let index = Index {
            ids: &self.pending_ids,
            marks: &self.pending_marks,
            ring: self.core.rings.decode().pending,
        };
        index.locate(id)
    }

    // The id leaves the index.
    fn unmark_all(&mut self, id: SequenceId)
        ensures { state_of self.new ≡ unmarked id.0 (state_of self.old) }
    {
        unmark(&mut self.pending_marks, &self.pending_ids, id);
    }

    // The first entry that bears an answerable id leaves, and the id the index.
    fn settle(&mut self, id: SequenceId) -> Result<OpSendRow, ProducerError>
        ensures { Settles id.0 self.old (decode_entries result) self.new }
    {
        let place = self.place_of(id).ok_or(ProducerError::NotAnswerable)?;
        let row = self.row_at(place);
        // Where no other slot bears the id, the entry that leaves takes its mark along.
        if 1 < bearing(&self.pending_ids, id) {
            self.unmark_all(id);
        }
        self.remove(place);
        Ok(row)
    }

    #[inline(never)]
    pub fn receive(
        &mut self,
        receipt: CommandSendReceipt,
    ) -> Result<(OpSendRow, MessageId), ProducerError>
        ensures meets { Meets [] (run.receipt receipt.sequence_id.0 receipt.message_id) self.old self.new (told (decode_settled result)) }
        ensures kept { Kept (told (decode_settled result)) self.old self.new }
    {
        let id = receipt.sequence_id;
        let row = self.settle(id)?;
        self.core.ids = published_ids(self.core.ids, id);
        Ok((row, MessageId::of_receipt(receipt.message_id)))
    }

    #[inline(never)]
    pub fn fail(&mut self, err: CommandSendError) -> Result<(OpSendRow, i32), ProducerError>
        ensures meets { Meets [] (send_error err.sequence_id.0 err.error) self.old self.new (told (decode_settled result)) }
        ensures kept { Kept (told (decode_settled result)) self.old self.new }
    {
        let row = self.settle(err.sequence_id)?;
        Ok((row, err.error))
    }

    // The entry that left, and the id that the message has now.
    pub fn apply_receipt(mut self, receipt: CommandSendReceipt) -> Answered<(OpSend, MessageId)>
        ensures meets { Meets [] (run.receipt receipt.sequence_id.0 receipt.message_id) self result.state (told result.answer) }
        ensures kept { Kept (told result.answer) self result.state }
    {
        Answered {
            answer: decode_settled(self.receive(receipt)),
            state: self,
        }
    }

    // The entry that left, and the error's code.
    pub fn apply_send_error(mut self, err: CommandSendError) -> Answered<(OpSend, i32)>
        ensures meets { Meets [] (send_error err.sequence_id.0 err.error) self result.state (told result.answer) }
        ensures kept { Kept (told result.answer) self result.state }
    {
        Answered {
            answer: decode_settled(self.fail(err)),
            state: self,
        }
    }
}
