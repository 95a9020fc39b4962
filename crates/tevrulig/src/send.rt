// Sends and the flush.
ghost use Rattle.std.specs.Prelude.{[]};
ghost use Rattle.queue.specs.Run.{send, flush};
ghost use Rattle.producer.specs.Meets.{Meets};
ghost use Rattle.producer.specs.Send.{sending, KeptSend};
ghost use Rattle.producer.specs.View.{view};
ghost use Rattle.rows.specs.Message.{decode_message};
ghost use Rattle.tevrulig.specs.Answers.{answered, sent_answer, Left, LeftBySend};

use producer::push::Given;
use producer::state::ProducerState;
use rows::message::MessageRow;
use types::answer::SendDecision;
use types::error::ProducerError;
use types::memory_limit::MemoryReservation;

// What a send answers: the frames of its message, or that it joined the open batch; of 6 both numbers.
#[derive(Clone, Copy)]
#[repr(C)]
pub struct Sent {
    pub count: usize,
    pub size: usize,
    pub max_message_size: usize,
    pub batched: u8,
}

#[unsafe(no_mangle)]
pub extern "C" fn tevrulig_queue_send_reserved(
    producer: &mut ProducerState,
    store: &[u8],
    message: &MessageRow,
    reserved: u64,
    uuid: &[u8; 16],
    publish_time: u64,
    now: u64,
    sent: &mut Sent,
) -> u32
    ensures meets { Meets store.now (send (sending (decode_message message.now) reserved uuid.now publish_time now)) producer.old producer.new (sent_answer result sent.new) }
    ensures kept { KeptSend (decode_message message.now) (view producer.old) (sent_answer result sent.new) producer.old producer.new }
    ensures sent { LeftBySend result sent.old sent.new }
{
    let a = Given {
        reservation: MemoryReservation { bytes: reserved },
        uuid: *uuid,
        publish_time,
        now,
    };
    match producer.send(store, message, a) {
        Ok(SendDecision::Emit { count }) => {
            *sent = Sent {
                count,
                size: 0,
                max_message_size: 0,
                batched: 0,
            };
            0
        }
        Ok(SendDecision::Batched) => {
            *sent = Sent {
                count: 0,
                size: 0,
                max_message_size: 0,
                batched: 1,
            };
            0
        }
        Err(
            ProducerError::MessageTooLarge {
                size,
                max_message_size,
            },
        ) => {
            *sent = Sent {
                count: 0,
                size,
                max_message_size,
                batched: 0,
            };
            6
        }
        Err(e) => e.number(),
    }
}

// With nothing reserved.
#[unsafe(no_mangle)]
pub extern "C" fn tevrulig_queue_send(
    producer: &mut ProducerState,
    store: &[u8],
    message: &MessageRow,
    uuid: &[u8; 16],
    publish_time: u64,
    now: u64,
    sent: &mut Sent,
) -> u32
    ensures meets { Meets store.now (send (sending (decode_message message.now) 0 uuid.now publish_time now)) producer.old producer.new (sent_answer result sent.new) }
    ensures kept { KeptSend (decode_message message.now) (view producer.old) (sent_answer result sent.new) producer.old producer.new }
    ensures sent { LeftBySend result sent.old sent.new }
{
    tevrulig_queue_send_reserved(producer, store, message, 0, uuid, publish_time, now, sent)
}

// The count of frames made, 0 or 1. As in the Rust the time of the call is not used.
#[unsafe(no_mangle)]
pub extern "C" fn tevrulig_flush_batch(
    producer: &mut ProducerState,
    publish_time: u64,
    _now: u64,
    count: &mut usize,
) -> u32
    ensures meets { Meets [] (flush publish_time) producer.old producer.new (answered result count.new) }
    ensures kept { Left result producer.old producer.new }
    ensures count { Left result count.old count.new }
{
    match producer.flush(publish_time) {
        Ok(n) => {
            *count = n;
            0
        }
        Err(e) => e.number(),
    }
}
