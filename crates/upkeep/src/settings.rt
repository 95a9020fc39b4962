// Settings one by one (document 01, 'Who can cause a refusal', setup).
ghost use Rattle.std.specs.Prelude.{◌≡◌, leb, take};
ghost use Rattle.types.specs.Bounds.{longest_name};
ghost use Rattle.queue.specs.Queue.{new_settings};
ghost use Rattle.queue.specs.Settings.{allowed, changed, closed, name_from};

use types::frame::ProducerName;
use types::settings::{Delays, Limits, ProducerSettings, Setting, Switches};

// Of a new producer.
pub fn new_settings() -> ProducerSettings
    ensures { result ≡ new_settings }
{
    ProducerSettings {
        name: ProducerName::empty(),
        limits: Limits {
            max_message_size: Limits::DEFAULT_MESSAGE_SIZE,
            max_batch_size_bytes: Limits::DEFAULT_BATCH_SIZE_BYTES,
            max_messages_in_batch: Limits::DEFAULT_MESSAGES_IN_BATCH,
            metadata_reservation: Limits::DEFAULT_METADATA_RESERVATION,
        },
        switches: Switches {
            batching_enabled: false,
            chunking_enabled: false,
            broker_ready: false,
            closed: false,
        },
        delays: Delays {
            send_timeout: None,
            batching_max_publish_delay: None,
        },
    }
}

// Not refused by 8.
pub fn allows(s: Setting) -> bool
    ensures { result ≡ allowed s }
{
    match s {
        Setting::MaxMessageSize(n) => n <= Limits::MAX_MESSAGE_SIZE,
        Setting::MaxBatchSizeBytes(n) => n <= Limits::MAX_BATCH_SIZE_BYTES,
        Setting::MaxMessagesInBatch(n) => n <= Limits::MAX_MESSAGES_IN_BATCH,
        Setting::MetadataReservation(n) => n <= Limits::MAX_METADATA_RESERVATION,
        Setting::BatchingEnabled(_)
        | Setting::ChunkingEnabled(_)
        | Setting::SendTimeout(_)
        | Setting::BatchingMaxPublishDelay(_)
        | Setting::BrokerReady(_) => true,
    }
}

pub fn with_setting(mut t: ProducerSettings, s: Setting) -> ProducerSettings
    ensures { result ≡ changed s t }
{
    match s {
        Setting::MaxMessageSize(n) => t.limits.max_message_size = n,
        Setting::MaxBatchSizeBytes(n) => t.limits.max_batch_size_bytes = n,
        Setting::MaxMessagesInBatch(n) => t.limits.max_messages_in_batch = n,
        Setting::MetadataReservation(n) => t.limits.metadata_reservation = n,
        Setting::BatchingEnabled(b) => t.switches.batching_enabled = b,
        Setting::ChunkingEnabled(b) => t.switches.chunking_enabled = b,
        Setting::SendTimeout(d) => t.delays.send_timeout = d,
        Setting::BatchingMaxPublishDelay(d) => t.delays.batching_max_publish_delay = d,
        Setting::BrokerReady(b) => t.switches.broker_ready = b,
    }
    t
}

// For good.
pub fn closed_settings(mut t: ProducerSettings) -> ProducerSettings
    ensures { result ≡ closed t }
{
    t.switches.closed = true;
    t
}

// 8: a name has at most 64 bytes.
pub fn allows_name(len: usize) -> bool
    ensures { result ≡ leb len longest_name }
{
    len <= ProducerName::MAX_LEN
}

// Of the first bytes, as many as a name can have.
pub fn name_from(name: &[u8]) -> ProducerName
    ensures { result ≡ name_from (take longest_name name.now) }
{
    let len = name.len().min(ProducerName::MAX_LEN);
    let mut bytes = [0; ProducerName::MAX_LEN];
    bytes[..len].copy_from_slice(&name[..len]);
    ProducerName { bytes, len }
}
