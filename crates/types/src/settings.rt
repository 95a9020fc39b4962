// What the owner of a producer sets.
use crate::frame::ProducerName;

#[derive(Clone, Copy, PartialEq, Eq)]
#[repr(C)]
pub struct Limits {
    // Payload length above which a message is chunked or refused.
    pub max_message_size: usize,
    pub max_batch_size_bytes: usize,
    pub max_messages_in_batch: usize,
    // What the command and metadata of a chunk may take of the message limit.
    pub metadata_reservation: usize,
}

// The largest values that a setting takes (refusal 8), and those of a new producer: the Rust's, but for the batch count, whose
// default is the largest.
impl Limits {
    pub const MAX_MESSAGE_SIZE: usize = 16_777_216;

    pub const MAX_BATCH_SIZE_BYTES: usize = 16_777_216;

    pub const MAX_MESSAGES_IN_BATCH: usize = 128;

    pub const MAX_METADATA_RESERVATION: usize = 65_536;

    pub const DEFAULT_MESSAGE_SIZE: usize = 5_242_880;

    pub const DEFAULT_BATCH_SIZE_BYTES: usize = 131_072;

    pub const DEFAULT_MESSAGES_IN_BATCH: usize = Limits::MAX_MESSAGES_IN_BATCH;

    pub const DEFAULT_METADATA_RESERVATION: usize = 1_024;
}

#[derive(Clone, Copy, PartialEq, Eq)]
pub struct Switches {
    pub batching_enabled: bool,
    pub chunking_enabled: bool,
    // Whether the broker has attached the producer in this session.
    pub broker_ready: bool,
    pub closed: bool,
}

// In milliseconds.
#[derive(Clone, Copy, PartialEq, Eq)]
pub struct Delays {
    pub send_timeout: Option<u64>,
    pub batching_max_publish_delay: Option<u64>,
}

#[derive(Clone, Copy, PartialEq, Eq)]
pub struct ProducerSettings {
    pub name: ProducerName,
    pub limits: Limits,
    pub switches: Switches,
    pub delays: Delays,
}

// One setting, as the call that sets it names it. The name and closing have calls of their own.
#[derive(Clone, Copy, PartialEq, Eq)]
pub enum Setting {
    MaxMessageSize(usize),
    MaxBatchSizeBytes(usize),
    MaxMessagesInBatch(usize),
    MetadataReservation(usize),
    BatchingEnabled(bool),
    ChunkingEnabled(bool),
    SendTimeout(Option<u64>),
    BatchingMaxPublishDelay(Option<u64>),
    BrokerReady(bool),
}
