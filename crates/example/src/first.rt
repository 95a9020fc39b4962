// The first message of a producer: its calls are a run, so that the order rule speaks of them (docs/ORDER.md).
ghost use Rattle.std.specs.Prelude.{◌≡◌, true, [], ◌∷◌, length, IfOk};
ghost use Rattle.queue.specs.Message.{message_of};
ghost use Rattle.queue.specs.Read.{read};
ghost use Rattle.queue.specs.Run.{set, send, flush, take, frame_of, accepted_by};
ghost use Rattle.queue.specs.Told.{told_send};
ghost use Rattle.producer.specs.Runs.{RunOfNew};
ghost use Rattle.producer.specs.Send.{sending};
ghost use Rattle.producer.specs.Take.{frame_told, told_frame};

use producer::state::ProducerState;
use types::answer::SendDecision;
use types::error::ProducerError;
use types::message::OutgoingMessage;
use types::outbound::OutboundFrame;
use types::settings::Setting;
use types::types::ProducerHandle;

#[derive(Clone, Copy)]
pub struct FirstMessage {
    pub sent: Result<SendDecision, ProducerError>,
    pub taken: Result<OutboundFrame, ProducerError>,
    pub state: ProducerState,
}

// A new producer that batches: the message is sent, the batch is flushed, and its frame is taken.
pub fn first_message(
    handle: ProducerHandle,
    store: &[u8],
    message: OutgoingMessage,
    uuid: [u8; 16],
    now: u64,
    buffer: &mut [u8],
) -> FirstMessage
    ensures run { RunOfNew store.now handle
        (set (Setting.BatchingEnabled true) ∷ send (sending message 0 uuid now now) ∷ flush now ∷ take (length buffer.old) ∷ []) result.state
        (frame_of (take (length buffer.old)) (told_frame store.now buffer.new result.taken))
        (accepted_by store.now (send (sending message 0 uuid now now)) (told_send result.sent)) }
    ensures reads { IfOk result.taken (λ f. read (frame_told store.now buffer.new f ∷ []) ≡ Some (message_of store.now message ∷ [])) }
{
    let new = ProducerState::new(handle);
    let batching = new.set(Setting::BatchingEnabled(true));
    let sent = batching.state.queue_send(store, message, uuid, now, now);
    let flushed = sent.state.flush_batch(now, now);
    let taken = flushed.state.next_outbound_frame(store, buffer);
    FirstMessage {
        sent: sent.answer,
        taken: taken.answer,
        state: taken.state,
    }
}
