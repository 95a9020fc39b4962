// What can be asked of a producer.
ghost use Rattle.std.specs.Prelude.{[]};
ghost use Rattle.queue.specs.Queue.{done};
ghost use Rattle.queue.specs.Run.{query, send_deadline, batch_deadline, batch_elapsed, can_add, waiting_count, headroom, statistics};
ghost use Rattle.producer.specs.Meets.{Meets};
ghost use Rattle.rows.specs.Optional.{decode_u64, decode_mark};

use producer::state::ProducerState;
use rows::optional::OptionalU64;
use types::stats::ProducerStats;

#[unsafe(no_mangle)]
pub extern "C" fn tevrulig_next_send_deadline(producer: &ProducerState) -> OptionalU64
    ensures { Meets [] (query send_deadline) producer.now producer.now (done (decode_u64 result)) }
{
    OptionalU64::encode(producer.send_deadline())
}

#[unsafe(no_mangle)]
pub extern "C" fn tevrulig_next_batch_deadline(producer: &ProducerState) -> OptionalU64
    ensures { Meets [] (query batch_deadline) producer.now producer.now (done (decode_u64 result)) }
{
    OptionalU64::encode(producer.batch_deadline())
}

// 1 or 0.
#[unsafe(no_mangle)]
pub extern "C" fn tevrulig_batch_deadline_elapsed(producer: &ProducerState, now: u64) -> u8
    ensures { Meets [] (query (batch_elapsed now)) producer.now producer.now (done (decode_mark result)) }
{
    producer.is_batch_due(now) as u8
}

// 1 or 0.
#[unsafe(no_mangle)]
pub extern "C" fn tevrulig_can_add_to_batch(
    producer: &ProducerState,
    payload_size: usize,
    num_messages: i32,
) -> u8
    ensures { Meets [] (query (can_add payload_size num_messages)) producer.now producer.now (done (decode_mark result)) }
{
    producer.may_add(payload_size, num_messages) as u8
}

// The waiting frames, chunks counted singly.
#[unsafe(no_mangle)]
pub extern "C" fn tevrulig_outbound_len(producer: &ProducerState) -> usize
    ensures { Meets [] (query waiting_count) producer.now producer.now (done result) }
{
    producer.waiting_count()
}

#[unsafe(no_mangle)]
pub extern "C" fn tevrulig_metadata_reservation(producer: &ProducerState) -> usize
    ensures { Meets [] (query headroom) producer.now producer.now (done result) }
{
    producer.headroom()
}

#[unsafe(no_mangle)]
pub extern "C" fn tevrulig_stats(producer: &ProducerState) -> ProducerStats
    ensures { Meets [] (query statistics) producer.now producer.now (done result) }
{
    producer.statistics()
}
