// Sends and the flush.
ghost use Rattle.std.specs.Prelude.{◌≡◌, [], false};
ghost use Rattle.queue.specs.Run.{send, flush};
ghost use Rattle.queue.specs.Told.{told_send, told, Kept};
ghost use Rattle.producer.specs.Meets.{Meets};
ghost use Rattle.plans.specs.Batch.{flushed_if};
ghost use Rattle.plans.specs.Send.{joined, singled, chunked, flushed_full, followed};
ghost use Rattle.producer.specs.Push.{after, whole, emitted_state, joined_state};
ghost use Rattle.producer.specs.State.{state_of};
ghost use Rattle.producer.specs.View.{view};
ghost use Rattle.producer.specs.Send.{sending, Carries, Emits, KeptSend, Stays};
ghost use Rattle.rows.specs.Message.{decode_message};

use crate::answer::Answered;
use crate::push::Given;
use crate::state::ProducerState;
use rows::batch::BatchRow;
use rows::entry::ReplayRow;
use rows::frame::{FrameRow, KindRow};
use rows::message::{MessageRow, SingleRow};
use rules::batch::with_message;
use rules::chunks::Cut;
use rules::numbers::{at_least_one, message_count};
use types::answer::SendDecision;
use types::entry::Replay;
use types::error::ProducerError;
use types::frame::{ChunkedMessageContext, FrameKind};
use types::memory_limit::MemoryReservation;
use types::message::OutgoingMessage;
use types::way::Way;

// How many frames wait more, and what they count as.
#[derive(Clone, Copy)]
pub(crate) struct PushedFrames {
    pub frames: usize,
    pub messages: usize,
    pub bytes: usize,
}

impl ProducerState {
    // The waiting batch becomes a frame, if that is asked for.
    fn flush_if(&mut self, asked: bool, publish_time: u64)
        ensures done { state_of self.new ≡ after (flushed_if asked publish_time (state_of self.old).core) (state_of self.old) }
        ensures kept { asked ≡ false → self.new ≡ self.old }
    {
        if asked {
            let p = self.core.decode().flush(publish_time);
            self.store_core(p.core);
            self.store_frame(p.put);
        }
    }

    // After a message has joined.
    fn flush_batch_if_full(&mut self, publish_time: u64)
        ensures { state_of self.new ≡ after (flushed_full publish_time (state_of self.old).core) (state_of self.old) }
    {
        let batch = self.core.batch;
        let full = self
            .core
            .decode()
            .is_full(batch.len, batch.current_size_bytes);
        self.flush_if(full, publish_time);
    }

    // The message joins the open batch, which counts it as one.
    fn add_to_batch(&mut self, message: &MessageRow, a: Given)
        ensures { state_of self.new ≡ joined_state (joined (whole (decode_message message.now) a) (state_of self.old).core) (state_of self.old) }
    {
        let id = self.core.ids.next_sequence_id;
        let batch = with_message(self.core.batch.decode(), message.decode(), id, a.now);
        self.accept(message, a, 1, ReplayRow::encode(Replay::Batched));
        self.hold(SingleRow::of(message));
        self.core.batch = BatchRow::encode(batch);
    }

    // An entry, and its frames, which count as so many messages and bytes.
    fn emit(
        &mut self,
        message: &MessageRow,
        a: Given,
        num_messages: i32,
        replay: ReplayRow,
        kind: KindRow,
        pushed: PushedFrames,
    )
        ensures { Emits message.now a num_messages replay kind pushed self.old self.new }
    {
        let uuid = a.uuid;
        let frame = FrameRow {
            sequence_id: self.core.ids.next_sequence_id,
            publish_time: a.publish_time,
            producer_name: self.core.settings.name,
            uuid,
            message: *message,
            kind,
        };
        self.accept(message, a, num_messages, replay);
        self.count(pushed.messages, pushed.bytes);
        self.push(frame, pushed.frames);
    }

    // A single frame bears max(num_messages, 1).
    fn emit_single(&mut self, message: &MessageRow, a: Given)
        ensures { state_of self.new ≡ emitted_state (singled (whole (decode_message message.now) a) (state_of self.old).core) (state_of self.old) }
    {
        let n = message.num_messages;
        let pushed = PushedFrames {
            frames: 1,
            messages: message_count(n),
            bytes: message.payload.len,
        };
        let replay = ReplayRow::encode(Replay::Single);
        let kind = KindRow::encode(FrameKind::Single);
        self.emit(message, a, at_least_one(n), replay, kind, pushed);
    }

    // One record, whose chunks count singly.
    fn emit_chunked(&mut self, message: &MessageRow, a: Given, cut: Cut)
        ensures { state_of self.new ≡ emitted_state (chunked (whole (decode_message message.now) a) cut.max_chunk_size cut.total_chunks (state_of self.old).core) (state_of self.old) }
    {
        let Cut {
            max_chunk_size,
            total_chunks,
        } = cut;
        let count = total_chunks as usize;
        let pushed = PushedFrames {
            frames: count,
            messages: count,
            bytes: cut.bytes(message.payload.len),
        };
        let replay = ReplayRow::encode(Replay::Chunked {
            total_chunks,
            max_chunk_size,
        });
        let kind = KindRow::encode(FrameKind::Chunked(ChunkedMessageContext {
            total_chunks,
            next_chunk: 0,
            max_chunk_size,
        }));
        self.emit(message, a, 1, replay, kind, pushed);
    }

    // What a way does with the message.
    fn follow(
        &mut self,
        way: Way,
        message: &MessageRow,
        a: Given,
    ) -> Result<SendDecision, ProducerError>
        ensures carries { Carries (followed way (whole (decode_message message.now) a) (state_of self.old).core) self.old result self.new }
        ensures kept { Stays way self.old self.new }
    {
        match way {
            Way::TooLarge { before } => {
                let max_message_size = self.core.settings.limits.max_message_size;
                self.flush_if(before, a.publish_time);
                Err(ProducerError::MessageTooLarge {
                    size: message.payload.len,
                    max_message_size,
                })
            }
            Way::Join { before, after: _ } => {
                self.flush_if(before, a.publish_time);
                self.add_to_batch(message, a);
                self.flush_batch_if_full(a.publish_time);
                Ok(SendDecision::Batched)
            }
            Way::Single { before } => {
                self.flush_if(before, a.publish_time);
                self.emit_single(message, a);
                Ok(SendDecision::Emit { count: 1 })
            }
            Way::Chunked {
                before,
                max_chunk_size,
                total_chunks,
            } => {
                self.flush_if(before, a.publish_time);
                let cut = Cut {
                    max_chunk_size,
                    total_chunks,
                };
                self.emit_chunked(message, a, cut);
                Ok(SendDecision::Emit {
                    count: total_chunks as usize,
                })
            }
        }
    }

    // An accepted send takes the reservation; a refused one leaves it with the caller.
    #[inline(never)]
    pub fn send(
        &mut self,
        store: &[u8],
        message: &MessageRow,
        a: Given,
    ) -> Result<SendDecision, ProducerError>
        ensures meets { Meets store.now (send (sending (decode_message message.now) a.reservation.bytes a.uuid a.publish_time a.now)) self.old self.new (told_send result) }
        ensures kept { KeptSend (decode_message message.now) (view self.old) (told_send result) self.old self.new }
    {
        let m = message.decode();
        let way = self.core.decode().choose(store.len(), m, a.reservation)?;
        self.follow(way, message, a)
    }

    // The same for a state by value.
    pub fn queue_send_reserved(
        mut self,
        store: &[u8],
        message: OutgoingMessage,
        reservation: MemoryReservation,
        uuid: [u8; 16],
        publish_time: u64,
        time: u64,
    ) -> Answered<SendDecision>
        ensures meets { Meets store.now (send (sending message reservation.bytes uuid publish_time time)) self result.state (told_send result.answer) }
        ensures kept { KeptSend message (view self) (told_send result.answer) self result.state }
    {
        let a = Given {
            reservation,
            uuid,
            publish_time,
            now: time,
        };
        let row = MessageRow::encode(message);
        Answered {
            answer: self.send(store, &row, a),
            state: self,
        }
    }

    // The same with nothing reserved.
    pub fn queue_send(
        mut self,
        store: &[u8],
        message: OutgoingMessage,
        uuid: [u8; 16],
        publish_time: u64,
        time: u64,
    ) -> Answered<SendDecision>
        ensures meets { Meets store.now (send (sending message 0 uuid publish_time time)) self result.state (told_send result.answer) }
        ensures kept { KeptSend message (view self) (told_send result.answer) self result.state }
    {
        let a = Given {
            reservation: MemoryReservation { bytes: 0 },
            uuid,
            publish_time,
            now: time,
        };
        let row = MessageRow::encode(message);
        Answered {
            answer: self.send(store, &row, a),
            state: self,
        }
    }

    // The count of frames made, 0 or 1.
    #[inline(never)]
    pub fn flush(&mut self, publish_time: u64) -> Result<usize, ProducerError>
        ensures meets { Meets [] (flush publish_time) self.old self.new (told result) }
        ensures kept { Kept (told result) self.old self.new }
    {
        let d = self.core.decode().plan_flush(publish_time);
        let count = d.answer?;
        self.store_frame(d.frame);
        self.store_core(d.core);
        Ok(count)
    }

    // The same for a state by value. As in the Rust the time of the call is not used.
    pub fn flush_batch(mut self, publish_time: u64, _now: u64) -> Answered<usize>
        ensures meets { Meets [] (flush publish_time) self result.state (told result.answer) }
        ensures kept { Kept (told result.answer) self result.state }
    {
        Answered {
            answer: self.flush(publish_time),
            state: self,
        }
    }
}
