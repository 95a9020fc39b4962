// The open batch.
ghost use Rattle.std.specs.Prelude.{◌≡◌};
ghost use Rattle.types.specs.Empty.{empty_batch};

use crate::txn::TxnId;
use crate::types::SequenceId;

// The messages that joined since the last flush. They are the last `len` of those held; while there is none the other fields
// mean nothing.
#[derive(Clone, Copy, PartialEq, Eq)]
pub struct BatchContainer {
    pub len: usize,
    // Sum of the payload lengths.
    pub current_size_bytes: usize,
    // Length of the batch's payload so far, headers included.
    pub encoded_len: usize,
    pub lowest_sequence_id: SequenceId,
    pub highest_sequence_id: SequenceId,
    // When the first message was added.
    pub first_added_at: u64,
    // The transaction that all its messages share.
    pub txn_id: Option<TxnId>,
}

impl BatchContainer {
    pub fn empty() -> BatchContainer
        ensures { result ≡ empty_batch }
    {
        BatchContainer {
            len: 0,
            current_size_bytes: 0,
            encoded_len: 0,
            lowest_sequence_id: SequenceId(0),
            highest_sequence_id: SequenceId(0),
            first_added_at: 0,
            txn_id: None,
        }
    }
}
