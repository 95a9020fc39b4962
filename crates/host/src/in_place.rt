// Each operation on the state where it stands, by the methods on a state that is lent: no ring is copied.
ghost use Rattle.std.specs.Prelude.{◌≤◌, length};
ghost use Rattle.script.specs.Output.{Writes};

use crate::drive::Drive;
use crate::task::Task;
use plans::send::Sending;
use producer::push::Given;
use producer::settle::decode_settled;
use producer::state::ProducerState;
use rows::entry::OpSendRow;
use rows::message::MessageRow;
use script::answer::put_done;
use script::operation::Call;
use script::write::Output;
use tables::snapshot::Snapshot;
use types::answer::SendDecision;
use types::command::{CommandSendError, CommandSendReceipt};
use types::entry::OpSend;
use types::error::ProducerError;
use types::outbound::OutboundFrame;
use types::settings::Setting;
use types::types::{MessageId, ProducerHandle, SequenceId};

#[derive(Drop)]
pub(crate) struct InPlace {
    state: ProducerState,
}

// What comes beside a send's message.
fn given(a: Sending) -> Given {
    let uuid = a.uuid;
    Given {
        reservation: a.reservation,
        uuid,
        publish_time: a.publish_time,
        now: a.now,
    }
}

impl Drive for InPlace {
    fn new(handle: ProducerHandle) -> Self {
        InPlace {
            state: ProducerState::new(handle),
        }
    }

    fn queue_send_reserved(
        &mut self,
        store: &[u8],
        a: Sending,
    ) -> Result<SendDecision, ProducerError> {
        self.state
            .send(store, &MessageRow::encode(a.message), given(a))
    }

    fn queue_send(&mut self, store: &[u8], a: Sending) -> Result<SendDecision, ProducerError> {
        self.queue_send_reserved(store, a)
    }

    fn flush_batch(&mut self, publish_time: u64, _now: u64) -> Result<usize, ProducerError> {
        self.state.flush(publish_time)
    }

    fn next_outbound_frame(
        &mut self,
        store: &[u8],
        buffer: &mut [u8],
    ) -> Result<OutboundFrame, ProducerError> {
        self.state.take(store, buffer)
    }

    fn apply_receipt(
        &mut self,
        receipt: CommandSendReceipt,
    ) -> Result<(OpSend, MessageId), ProducerError> {
        decode_settled(self.state.receive(receipt))
    }

    fn apply_send_error(&mut self, err: CommandSendError) -> Result<(OpSend, i32), ProducerError> {
        decode_settled(self.state.fail(err))
    }

    fn drain_timed_out_sends(
        &mut self,
        time: u64,
        table: &mut [OpSendRow],
    ) -> Result<usize, ProducerError> {
        self.state.time_out(time, table)
    }

    fn drain_pending_sends(&mut self, table: &mut [OpSendRow]) -> Result<usize, ProducerError> {
        self.state.drain(table)
    }

    fn snapshot_pending_sends(
        &mut self,
        dropped: &mut [OpSendRow],
        replay: &mut [OpSendRow],
    ) -> Result<Snapshot, ProducerError> {
        self.state.snapshot(dropped, replay)
    }

    fn replay_snapshots(&mut self, table: &[OpSendRow]) -> Result<(), ProducerError> {
        self.state.replay(table)
    }

    fn replay_pending_outbound(&mut self) -> Result<usize, ProducerError> {
        self.state.resend()
    }

    fn set_initial_sequence_id(&mut self, next: SequenceId) {
        self.state.start_at(next);
    }

    fn set_name(&mut self, name: &[u8]) -> Result<(), ProducerError> {
        self.state.rename(name)
    }

    fn set(&mut self, s: Setting) -> Result<(), ProducerError> {
        self.state.change(s)
    }

    fn close(&mut self) {
        self.state.shut();
    }

    fn put_asked(&self, task: Task, out: &mut Output) {
        let call = task.call;
        match call {
            Call::NextSendDeadline => put_done(out, call, self.state.send_deadline()),
            Call::NextBatchDeadline => put_done(out, call, self.state.batch_deadline()),
            Call::BatchDeadlineElapsed => {
                put_done(out, call, self.state.is_batch_due(task.arguments.get()))
            }
            Call::CanAddToBatch => put_done(
                out,
                call,
                self.state
                    .may_add(task.arguments.get(), task.arguments.behind(8).get()),
            ),
            Call::OutboundLen => put_done(out, call, self.state.waiting_count()),
            Call::MetadataReservation => put_done(out, call, self.state.headroom()),
            _ => put_done(out, call, self.state.statistics()),
        }
    }

    fn state(&self) -> &ProducerState {
        &self.state
    }
}
