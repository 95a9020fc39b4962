// The open batch.
ghost use Rattle.std.specs.Prelude.{◌≡◌};
ghost use Rattle.rows.specs.Batch.{decode_batch};

use crate::optional::OptionalTxnId;
use types::batch::BatchContainer;
use types::types::SequenceId;

#[derive(Clone, Copy)]
#[repr(C)]
pub struct BatchRow {
    pub len: usize,
    pub current_size_bytes: usize,
    pub encoded_len: usize,
    pub lowest_sequence_id: SequenceId,
    pub highest_sequence_id: SequenceId,
    pub first_added_at: u64,
    pub txn_id: OptionalTxnId,
}

impl BatchRow {
    pub fn decode(self) -> BatchContainer
        ensures { result ≡ decode_batch self }
    {
        BatchContainer {
            len: self.len,
            current_size_bytes: self.current_size_bytes,
            encoded_len: self.encoded_len,
            lowest_sequence_id: self.lowest_sequence_id,
            highest_sequence_id: self.highest_sequence_id,
            first_added_at: self.first_added_at,
            txn_id: self.txn_id.decode(),
        }
    }

    pub fn encode(b: BatchContainer) -> BatchRow
        ensures { decode_batch result ≡ b }
    {
        BatchRow {
            len: b.len,
            current_size_bytes: b.current_size_bytes,
            encoded_len: b.encoded_len,
            lowest_sequence_id: b.lowest_sequence_id,
            highest_sequence_id: b.highest_sequence_id,
            first_added_at: b.first_added_at,
            txn_id: OptionalTxnId::encode(b.txn_id),
        }
    }
}
