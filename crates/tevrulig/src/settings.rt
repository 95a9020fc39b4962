// A new producer, its settings, closing and the first id.
ghost use Rattle.std.specs.Prelude.{◌≡◌, ◌==◌, not, []};
ghost use Rattle.queue.specs.Queue.{done, new_queue};
ghost use Rattle.queue.specs.Run.{set, set_name, close, initial_id};
ghost use Rattle.producer.specs.Meets.{Meets};
ghost use Rattle.producer.specs.View.{view};
ghost use Rattle.types.specs.declared.settings.Setting.TheVariants.{MaxMessageSize, MaxBatchSizeBytes, MaxMessagesInBatch, MetadataReservation, BatchingEnabled, ChunkingEnabled, SendTimeout, BatchingMaxPublishDelay, BrokerReady};
ghost use Rattle.rows.specs.Optional.{decode_u64, decode_mark};
ghost use Rattle.tevrulig.specs.Answers.{status_answer, status_of, Left};

use producer::state::ProducerState;
use rows::optional::OptionalU64;
use types::error::ProducerError;
use types::settings::Setting;
use types::types::{ProducerHandle, SequenceId};

// The status of a call that answers nothing else.
pub(crate) fn status(answer: Result<(), ProducerError>) -> u32
    ensures { result ≡ status_of answer }
{
    match answer {
        Ok(()) => 0,
        Err(e) => e.number(),
    }
}

// A new producer, whatever the memory held.
#[unsafe(no_mangle)]
pub extern "C" fn tevrulig_new(producer: &mut ProducerState, handle: u64)
    ensures { view producer.new ≡ new_queue (record { 0 = handle }) }
{
    producer.reset(ProducerHandle(handle));
}

// The size of a producer, for a caller to compare with its own.
#[unsafe(no_mangle)]
pub extern "C" fn tevrulig_producer_size() -> usize {
    size_of::<ProducerState>()
}

fn set(producer: &mut ProducerState, s: Setting) -> u32
    ensures meets { Meets [] (set s) producer.old producer.new (status_answer result) }
    ensures kept { Left result producer.old producer.new }
{
    status(producer.change(s))
}

#[unsafe(no_mangle)]
pub extern "C" fn tevrulig_set_max_message_size(producer: &mut ProducerState, limit: usize) -> u32
    ensures meets { Meets [] (set (MaxMessageSize limit)) producer.old producer.new (status_answer result) }
    ensures kept { Left result producer.old producer.new }
{
    set(producer, Setting::MaxMessageSize(limit))
}

#[unsafe(no_mangle)]
pub extern "C" fn tevrulig_set_max_batch_size_bytes(
    producer: &mut ProducerState,
    limit: usize,
) -> u32
    ensures meets { Meets [] (set (MaxBatchSizeBytes limit)) producer.old producer.new (status_answer result) }
    ensures kept { Left result producer.old producer.new }
{
    set(producer, Setting::MaxBatchSizeBytes(limit))
}

#[unsafe(no_mangle)]
pub extern "C" fn tevrulig_set_max_messages_in_batch(
    producer: &mut ProducerState,
    limit: usize,
) -> u32
    ensures meets { Meets [] (set (MaxMessagesInBatch limit)) producer.old producer.new (status_answer result) }
    ensures kept { Left result producer.old producer.new }
{
    set(producer, Setting::MaxMessagesInBatch(limit))
}

#[unsafe(no_mangle)]
pub extern "C" fn tevrulig_set_metadata_reservation(
    producer: &mut ProducerState,
    bytes: usize,
) -> u32
    ensures meets { Meets [] (set (MetadataReservation bytes)) producer.old producer.new (status_answer result) }
    ensures kept { Left result producer.old producer.new }
{
    set(producer, Setting::MetadataReservation(bytes))
}

#[unsafe(no_mangle)]
pub extern "C" fn tevrulig_set_batching_enabled(producer: &mut ProducerState, on: u8) -> u32
    ensures meets { Meets [] (set (BatchingEnabled (decode_mark on))) producer.old producer.new (status_answer result) }
    ensures kept { Left result producer.old producer.new }
{
    set(producer, Setting::BatchingEnabled(on != 0))
}

#[unsafe(no_mangle)]
pub extern "C" fn tevrulig_set_chunking_enabled(producer: &mut ProducerState, on: u8) -> u32
    ensures meets { Meets [] (set (ChunkingEnabled (decode_mark on))) producer.old producer.new (status_answer result) }
    ensures kept { Left result producer.old producer.new }
{
    set(producer, Setting::ChunkingEnabled(on != 0))
}

#[unsafe(no_mangle)]
pub extern "C" fn tevrulig_set_broker_ready(producer: &mut ProducerState, on: u8) -> u32
    ensures meets { Meets [] (set (BrokerReady (decode_mark on))) producer.old producer.new (status_answer result) }
    ensures kept { Left result producer.old producer.new }
{
    set(producer, Setting::BrokerReady(on != 0))
}

#[unsafe(no_mangle)]
pub extern "C" fn tevrulig_set_send_timeout(producer: &mut ProducerState, delay: OptionalU64) -> u32
    ensures meets { Meets [] (set (SendTimeout (decode_u64 delay))) producer.old producer.new (status_answer result) }
    ensures kept { Left result producer.old producer.new }
{
    set(producer, Setting::SendTimeout(delay.decode()))
}

#[unsafe(no_mangle)]
pub extern "C" fn tevrulig_set_batching_max_publish_delay(
    producer: &mut ProducerState,
    delay: OptionalU64,
) -> u32
    ensures meets { Meets [] (set (BatchingMaxPublishDelay (decode_u64 delay))) producer.old producer.new (status_answer result) }
    ensures kept { Left result producer.old producer.new }
{
    set(producer, Setting::BatchingMaxPublishDelay(delay.decode()))
}

#[unsafe(no_mangle)]
pub extern "C" fn tevrulig_set_name(producer: &mut ProducerState, name: &[u8]) -> u32
    ensures meets { Meets [] (set_name name.now) producer.old producer.new (status_answer result) }
    ensures kept { Left result producer.old producer.new }
{
    status(producer.rename(name))
}

#[unsafe(no_mangle)]
pub extern "C" fn tevrulig_close(producer: &mut ProducerState)
    ensures { Meets [] close producer.old producer.new (done tt) }
{
    producer.shut();
}

#[unsafe(no_mangle)]
pub extern "C" fn tevrulig_set_initial_sequence_id(producer: &mut ProducerState, next: u64)
    ensures { Meets [] (initial_id next) producer.old producer.new (done tt) }
{
    producer.start_at(SequenceId(next));
}
