// The numbers that a producer counts with.
use crate::types::SequenceId;

#[derive(Clone, Copy, PartialEq, Eq)]
#[repr(C)]
pub struct SequenceIds {
    pub next_sequence_id: SequenceId,
    pub last_sequence_id_pushed: i64,
    pub last_sequence_id_published: i64,
}

// Each stops at 2^64 - 1.
#[derive(Clone, Copy, PartialEq, Eq)]
#[repr(C)]
pub struct Counters {
    pub total_msgs_sent: u64,
    pub total_bytes_sent: u64,
    pub total_send_failed: u64,
    pub total_acks_received: u64,
}

#[derive(Clone, Copy, PartialEq, Eq)]
#[repr(C)]
pub struct ProducerStats {
    pub counters: Counters,
    pub pending_queue_size: u64,
}
