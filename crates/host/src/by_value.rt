// Each operation through the public method on a state by value. It stores what the method answers at once, and is handed its
// arguments, so that the compiler keeps one state where the answer has it. None is inlined into another: the frames of all of them
// together would need more stack than a main thread has.
ghost use Rattle.std.specs.Prelude.{◌≤◌, length};
ghost use Rattle.host.specs.Framing.{bytes_taken};
ghost use Rattle.producer.specs.Tables.{handed_count, dropped_count, replay_count};
ghost use Rattle.script.specs.Output.{Wrote, Writes};

use crate::drive::Drive;
use crate::task::Task;
use plans::send::Sending;
use producer::state::ProducerState;
use rows::entry::OpSendRow;
use script::answer::put_done;
use script::operation::Call;
use script::write::Output;
use tables::snapshot::Snapshot;
use types::answer::SendDecision;
use types::command::{CommandSendError, CommandSendReceipt};
use types::entry::OpSend;
use types::error::ProducerError;
use types::outbound::OutboundFrame;
use types::settings::Setting;
use types::types::{MessageId, ProducerHandle, SequenceId};

#[derive(Drop)]
pub(crate) struct ByValue {
    state: ProducerState,
}

#[inline(never)]
fn queue_send_reserved(
    s: &mut ProducerState,
    store: &[u8],
    a: Sending,
) -> Result<SendDecision, ProducerError> {
    let r = s.queue_send_reserved(
        store,
        a.message,
        a.reservation,
        a.uuid,
        a.publish_time,
        a.now,
    );
    *s = r.state;
    r.answer
}

#[inline(never)]
fn queue_send(
    s: &mut ProducerState,
    store: &[u8],
    a: Sending,
) -> Result<SendDecision, ProducerError> {
    let r = s.queue_send(store, a.message, a.uuid, a.publish_time, a.now);
    *s = r.state;
    r.answer
}

#[inline(never)]
fn flush_batch(s: &mut ProducerState, publish_time: u64, now: u64) -> Result<usize, ProducerError> {
    let r = s.flush_batch(publish_time, now);
    *s = r.state;
    r.answer
}

#[inline(never)]
fn next_outbound_frame(
    s: &mut ProducerState,
    store: &[u8],
    buffer: &mut [u8],
) -> Result<OutboundFrame, ProducerError>
    ensures { Wrote 0 buffer.old buffer.new (bytes_taken result) }
{
    let r = s.next_outbound_frame(store, buffer);
    *s = r.state;
    r.answer
}

#[inline(never)]
fn apply_receipt(
    s: &mut ProducerState,
    receipt: CommandSendReceipt,
) -> Result<(OpSend, MessageId), ProducerError> {
    let r = s.apply_receipt(receipt);
    *s = r.state;
    r.answer
}

#[inline(never)]
fn apply_send_error(
    s: &mut ProducerState,
    err: CommandSendError,
) -> Result<(OpSend, i32), ProducerError> {
    let r = s.apply_send_error(err);
    *s = r.state;
    r.answer
}

#[inline(never)]
fn drain_timed_out_sends(
    s: &mut ProducerState,
    time: u64,
    table: &mut [OpSendRow],
) -> Result<usize, ProducerError>
    ensures { handed_count result ≤ length table.old }
{
    let r = s.drain_timed_out_sends(time, table);
    *s = r.state;
    r.answer
}

#[inline(never)]
fn drain_pending_sends(
    s: &mut ProducerState,
    table: &mut [OpSendRow],
) -> Result<usize, ProducerError>
    ensures { handed_count result ≤ length table.old }
{
    let r = s.drain_pending_sends(table);
    *s = r.state;
    r.answer
}

#[inline(never)]
fn snapshot_pending_sends(
    s: &mut ProducerState,
    dropped: &mut [OpSendRow],
    replay: &mut [OpSendRow],
) -> Result<Snapshot, ProducerError>
    ensures dropped { dropped_count result ≤ length dropped.old }
    ensures replay { replay_count result ≤ length replay.old }
{
    let r = s.snapshot_pending_sends(dropped, replay);
    *s = r.state;
    r.answer
}

#[inline(never)]
fn replay_snapshots(s: &mut ProducerState, table: &[OpSendRow]) -> Result<(), ProducerError> {
    let r = s.replay_snapshots(table);
    *s = r.state;
    r.answer
}

#[inline(never)]
fn replay_pending_outbound(s: &mut ProducerState) -> Result<usize, ProducerError> {
    let r = s.replay_pending_outbound();
    *s = r.state;
    r.answer
}

#[inline(never)]
fn set_initial_sequence_id(s: &mut ProducerState, next: SequenceId) {
    *s = s.set_initial_sequence_id(next);
}

#[inline(never)]
fn set_name(s: &mut ProducerState, name: &[u8]) -> Result<(), ProducerError> {
    let r = s.set_name(name);
    *s = r.state;
    r.answer
}

#[inline(never)]
fn set(s: &mut ProducerState, setting: Setting) -> Result<(), ProducerError> {
    let r = s.set(setting);
    *s = r.state;
    r.answer
}

#[inline(never)]
fn close(s: &mut ProducerState) {
    *s = s.close();
}

#[inline(never)]
fn put_asked(s: &ProducerState, task: Task, out: &mut Output)
    ensures { Writes out.old out.new }
{
    let call = task.call;
    match call {
        Call::NextSendDeadline => put_done(out, call, s.next_send_deadline()),
        Call::NextBatchDeadline => put_done(out, call, s.next_batch_deadline()),
        Call::BatchDeadlineElapsed => put_done(
            out,
            call,
            s.batch_deadline_elapsed(task.arguments.get()),
        ),
        Call::CanAddToBatch => put_done(
            out,
            call,
            s.can_add_to_batch(task.arguments.get(), task.arguments.behind(8).get()),
        ),
        Call::OutboundLen => put_done(out, call, s.outbound_len()),
        Call::MetadataReservation => put_done(out, call, s.metadata_reservation()),
        _ => put_done(out, call, s.stats()),
    }
}

impl Drive for ByValue {
    fn new(handle: ProducerHandle) -> Self {
        ByValue {
            state: ProducerState::new(handle),
        }
    }

    fn queue_send_reserved(
        &mut self,
        store: &[u8],
        a: Sending,
    ) -> Result<SendDecision, ProducerError> {
        queue_send_reserved(&mut self.state, store, a)
    }

    fn queue_send(&mut self, store: &[u8], a: Sending) -> Result<SendDecision, ProducerError> {
        queue_send(&mut self.state, store, a)
    }

    fn flush_batch(&mut self, publish_time: u64, now: u64) -> Result<usize, ProducerError> {
        flush_batch(&mut self.state, publish_time, now)
    }

    fn next_outbound_frame(
        &mut self,
        store: &[u8],
        buffer: &mut [u8],
    ) -> Result<OutboundFrame, ProducerError> {
        next_outbound_frame(&mut self.state, store, buffer)
    }

    fn apply_receipt(
        &mut self,
        receipt: CommandSendReceipt,
    ) -> Result<(OpSend, MessageId), ProducerError> {
        apply_receipt(&mut self.state, receipt)
    }

    fn apply_send_error(&mut self, err: CommandSendError) -> Result<(OpSend, i32), ProducerError> {
        apply_send_error(&mut self.state, err)
    }

    fn drain_timed_out_sends(
        &mut self,
        time: u64,
        table: &mut [OpSendRow],
    ) -> Result<usize, ProducerError> {
        drain_timed_out_sends(&mut self.state, time, table)
    }

    fn drain_pending_sends(&mut self, table: &mut [OpSendRow]) -> Result<usize, ProducerError> {
        drain_pending_sends(&mut self.state, table)
    }

    fn snapshot_pending_sends(
        &mut self,
        dropped: &mut [OpSendRow],
        replay: &mut [OpSendRow],
    ) -> Result<Snapshot, ProducerError> {
        snapshot_pending_sends(&mut self.state, dropped, replay)
    }

    fn replay_snapshots(&mut self, table: &[OpSendRow]) -> Result<(), ProducerError> {
        replay_snapshots(&mut self.state, table)
    }

    fn replay_pending_outbound(&mut self) -> Result<usize, ProducerError> {
        replay_pending_outbound(&mut self.state)
    }

    fn set_initial_sequence_id(&mut self, next: SequenceId) {
        set_initial_sequence_id(&mut self.state, next);
    }

    fn set_name(&mut self, name: &[u8]) -> Result<(), ProducerError> {
        set_name(&mut self.state, name)
    }

    fn set(&mut self, s: Setting) -> Result<(), ProducerError> {
        set(&mut self.state, s)
    }

    fn close(&mut self) {
        close(&mut self.state);
    }

    fn put_asked(&self, task: Task, out: &mut Output) {
        put_asked(&self.state, task, out)
    }

    fn state(&self) -> &ProducerState {
        &self.state
    }
}
