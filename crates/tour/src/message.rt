// A message as its bytes, wherever they lie.
use types::message::{Part, SingleMessage};
use types::txn::TxnId;

// Payload, both keys, event time, both null marks and transaction. Absent differs from empty and from false (document 01, 'How
// demand 3 is read').
#[derive(Clone, Copy, PartialEq, Eq)]
pub struct Message<'a> {
    pub payload: &'a [u8],
    pub partition_key: Option<&'a [u8]>,
    pub ordering_key: Option<&'a [u8]>,
    pub event_time: Option<u64>,
    pub null_value: Option<bool>,
    pub null_partition_key: Option<bool>,
    pub txn_id: Option<TxnId>,
}

// Nothing of a part that does not lie within.
pub fn bytes_at(bytes: &[u8], p: Part) -> &[u8] {
    bytes
        .get(p.start..p.start.saturating_add(p.len))
        .unwrap_or(&[])
}

impl<'a> Message<'a> {
    // A message whose parts are in the bytes.
    pub fn at(bytes: &'a [u8], m: &SingleMessage, txn_id: Option<TxnId>) -> Message<'a> {
        Message {
            payload: bytes_at(bytes, m.payload),
            partition_key: m.partition_key.map(|p| bytes_at(bytes, p)),
            ordering_key: m.ordering_key.map(|p| bytes_at(bytes, p)),
            event_time: m.event_time,
            null_value: m.null_value,
            null_partition_key: m.null_partition_key,
            txn_id,
        }
    }
}
