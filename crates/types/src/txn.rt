// A transaction id.
#[derive(Clone, Copy, PartialEq, Eq)]
#[repr(C)]
pub struct TxnId {
    // Most often the transaction coordinator.
    pub most_sig_bits: u64,
    // Most often the number within the coordinator.
    pub least_sig_bits: u64,
}
