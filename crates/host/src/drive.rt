// How the operations of a script are carried out: by the methods on a state by value, or by those on a state that is lent.
ghost use Rattle.std.specs.Prelude.{◌≤◌, length};
ghost use Rattle.host.specs.Framing.{bytes_taken};
ghost use Rattle.producer.specs.Tables.{handed_count, dropped_count, replay_count};
ghost use Rattle.script.specs.Output.{Wrote, Writes};

use crate::task::Task;
use plans::send::Sending;
use producer::state::ProducerState;
use rows::entry::OpSendRow;
use script::write::Output;
use tables::snapshot::Snapshot;
use types::answer::SendDecision;
use types::command::{CommandSendError, CommandSendReceipt};
use types::entry::OpSend;
use types::error::ProducerError;
use types::outbound::OutboundFrame;
use types::settings::Setting;
use types::types::{MessageId, ProducerHandle, SequenceId};

// A producer, and how its operations are carried out.
pub(crate) trait Drive: Drop {
    // Of a new producer.
    fn new(handle: ProducerHandle) -> Self;

    fn queue_send_reserved(
        &mut self,
        store: &[u8],
        a: Sending,
    ) -> Result<SendDecision, ProducerError>;

    // With nothing reserved.
    fn queue_send(&mut self, store: &[u8], a: Sending) -> Result<SendDecision, ProducerError>;

    fn flush_batch(&mut self, publish_time: u64, now: u64) -> Result<usize, ProducerError>;

    fn next_outbound_frame(
        &mut self,
        store: &[u8],
        buffer: &mut [u8],
    ) -> Result<OutboundFrame, ProducerError>
        ensures { Wrote 0 buffer.old buffer.new (bytes_taken result) };

    fn apply_receipt(
        &mut self,
        receipt: CommandSendReceipt,
    ) -> Result<(OpSend, MessageId), ProducerError>;

    fn apply_send_error(&mut self, err: CommandSendError) -> Result<(OpSend, i32), ProducerError>;

    fn drain_timed_out_sends(
        &mut self,
        time: u64,
        table: &mut [OpSendRow],
    ) -> Result<usize, ProducerError>
        ensures { handed_count result ≤ length table.old };

    fn drain_pending_sends(&mut self, table: &mut [OpSendRow]) -> Result<usize, ProducerError>
        ensures { handed_count result ≤ length table.old };

    fn snapshot_pending_sends(
        &mut self,
        dropped: &mut [OpSendRow],
        replay: &mut [OpSendRow],
    ) -> Result<Snapshot, ProducerError>
        ensures dropped { dropped_count result ≤ length dropped.old }
        ensures replay { replay_count result ≤ length replay.old };

    fn replay_snapshots(&mut self, table: &[OpSendRow]) -> Result<(), ProducerError>;

    fn replay_pending_outbound(&mut self) -> Result<usize, ProducerError>;

    fn set_initial_sequence_id(&mut self, next: SequenceId);

    fn set_name(&mut self, name: &[u8]) -> Result<(), ProducerError>;

    fn set(&mut self, s: Setting) -> Result<(), ProducerError>;

    fn close(&mut self);

    // What can be asked.
    fn put_asked(&self, task: Task, out: &mut Output)
        ensures { Writes out.old out.new };

    // For the dump.
    fn state(&self) -> &ProducerState;
}
