// One operation, by either drive.
ghost use Rattle.std.specs.Prelude.{◌≤◌, length};
ghost use Rattle.script.specs.Output.{Writes};

use crate::drive::Drive;
use crate::dump::put_dump;
use crate::lent::{Table, call_drain, call_replay, call_snapshot};
use crate::take::call_take;
use crate::task::Task;
use script::answer::put_done;
use script::operation::Call;
use script::write::Output;

// `last` has the replay table of the last snapshot. The whole answer has room.
pub(crate) fn carry_out<D: Drive>(d: &mut D, last: &mut Table, task: Task, out: &mut Output)
    requires { out.old.at ≤ length out.old.bytes.now }
    ensures { Writes out.old out.new }
{
    match task.call {
        Call::QueueSendReserved => {
            let answer = d.queue_send_reserved(task.lent_to_send(), task.sending());
            out.put((task.call, answer));
        }
        Call::QueueSend => {
            let answer = d.queue_send(task.lent_to_send(), task.sending());
            out.put((task.call, answer));
        }
        Call::FlushBatch => {
            let answer = d.flush_batch(task.arguments.get(), task.arguments.behind(8).get());
            out.put((task.call, answer));
        }
        Call::NextOutboundFrame => call_take(d, task, out),
        Call::ApplyReceipt => match d.apply_receipt(task.arguments.get()) {
            Ok((op, id)) => put_done(out, task.call, (id, op)),
            Err(e) => out.put((task.call, e)),
        },
        Call::ApplySendError => match d.apply_send_error(task.arguments.get()) {
            Ok((op, error)) => put_done(out, task.call, (error, op)),
            Err(e) => out.put((task.call, e)),
        },
        Call::DrainTimedOutSends | Call::DrainPendingSends => call_drain(d, task, out),
        Call::SnapshotPendingSends => call_snapshot(d, last, task, out),
        Call::ReplaySnapshots | Call::ReplayLastSnapshot => call_replay(d, last, task, out),
        Call::ReplayPendingOutbound => {
            let answer = d.replay_pending_outbound();
            out.put((task.call, answer));
        }
        Call::SetInitialSequenceId => {
            d.set_initial_sequence_id(task.arguments.get());
            put_done(out, task.call, ());
        }
        Call::SetName => {
            let answer = d.set_name(task.name());
            out.put((task.call, answer));
        }
        Call::SetMaxMessageSize
        | Call::SetMaxBatchSizeBytes
        | Call::SetMaxMessagesInBatch
        | Call::SetMetadataReservation
        | Call::SetBatchingEnabled
        | Call::SetChunkingEnabled
        | Call::SetSendTimeout
        | Call::SetBatchingMaxPublishDelay
        | Call::SetBrokerReady => {
            let answer = d.set(task.setting());
            out.put((task.call, answer));
        }
        Call::Close => {
            d.close();
            put_done(out, task.call, ());
        }
        Call::Dump => put_dump(d.state(), out),
        Call::NextSendDeadline
        | Call::NextBatchDeadline
        | Call::BatchDeadlineElapsed
        | Call::CanAddToBatch
        | Call::OutboundLen
        | Call::MetadataReservation
        | Call::Stats => d.put_asked(task, out),
    }
}
