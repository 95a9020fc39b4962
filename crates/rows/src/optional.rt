// Optional values: a value that counts where its mark is not 0.
ghost use Rattle.std.specs.Prelude.{◌≡◌};
ghost use Rattle.rows.specs.Optional.{when, decode_part, decode_u64, decode_i64, decode_i32, decode_bool, decode_txn, decode_message_id, decode_sequence_id, decode_uuid};

use types::message::Part;
use types::txn::TxnId;
use types::types::{MessageId, SequenceId};

#[derive(Clone, Copy)]
#[repr(C)]
pub struct OptionalPart {
    pub value: Part,
    pub present: u8,
}

#[derive(Clone, Copy)]
#[repr(C)]
pub struct OptionalU64 {
    pub value: u64,
    pub present: u8,
}

#[derive(Clone, Copy)]
#[repr(C)]
pub struct OptionalI64 {
    pub value: i64,
    pub present: u8,
}

#[derive(Clone, Copy)]
#[repr(C)]
pub struct OptionalI32 {
    pub value: i32,
    pub present: u8,
}

// True where the value is not 0.
#[derive(Clone, Copy)]
#[repr(C)]
pub struct OptionalBool {
    pub value: u8,
    pub present: u8,
}

#[derive(Clone, Copy)]
#[repr(C)]
pub struct OptionalTxnId {
    pub value: TxnId,
    pub present: u8,
}

#[derive(Clone, Copy)]
#[repr(C)]
pub struct OptionalMessageId {
    pub value: MessageId,
    pub present: u8,
}

#[derive(Clone, Copy)]
#[repr(C)]
pub struct OptionalSequenceId {
    pub value: SequenceId,
    pub present: u8,
}

// A uuid as 36 characters.
#[derive(Clone, Copy)]
#[repr(C)]
pub struct OptionalUuid {
    pub value: [u8; 36],
    pub present: u8,
}

fn when<T: Copy>(present: u8, value: T) -> Option<T>
    ensures { result ≡ when present value }
{
    if present == 0 { None } else { Some(value) }
}

impl OptionalPart {
    pub fn decode(self) -> Option<Part>
        ensures { result ≡ decode_part self }
    {
        when(self.present, self.value)
    }

    pub fn encode(x: Option<Part>) -> OptionalPart
        ensures { decode_part result ≡ x }
    {
        match x {
            Some(value) => OptionalPart { value, present: 1 },
            None => OptionalPart {
                value: Part { start: 0, len: 0 },
                present: 0,
            },
        }
    }
}

impl OptionalU64 {
    pub fn decode(self) -> Option<u64>
        ensures { result ≡ decode_u64 self }
    {
        when(self.present, self.value)
    }

    pub fn encode(x: Option<u64>) -> OptionalU64
        ensures { decode_u64 result ≡ x }
    {
        match x {
            Some(value) => OptionalU64 { value, present: 1 },
            None => OptionalU64 {
                value: 0,
                present: 0,
            },
        }
    }
}

impl OptionalI64 {
    pub fn decode(self) -> Option<i64>
        ensures { result ≡ decode_i64 self }
    {
        when(self.present, self.value)
    }

    pub fn encode(x: Option<i64>) -> OptionalI64
        ensures { decode_i64 result ≡ x }
    {
        match x {
            Some(value) => OptionalI64 { value, present: 1 },
            None => OptionalI64 {
                value: 0,
                present: 0,
            },
        }
    }
}

impl OptionalI32 {
    pub fn decode(self) -> Option<i32>
        ensures { result ≡ decode_i32 self }
    {
        when(self.present, self.value)
    }

    pub fn encode(x: Option<i32>) -> OptionalI32
        ensures { decode_i32 result ≡ x }
    {
        match x {
            Some(value) => OptionalI32 { value, present: 1 },
            None => OptionalI32 {
                value: 0,
                present: 0,
            },
        }
    }
}

impl OptionalBool {
    pub fn decode(self) -> Option<bool>
        ensures { result ≡ decode_bool self }
    {
        when(self.present, self.value != 0)
    }

    pub fn encode(x: Option<bool>) -> OptionalBool
        ensures { decode_bool result ≡ x }
    {
        match x {
            Some(true) => OptionalBool {
                value: 1,
                present: 1,
            },
            Some(false) => OptionalBool {
                value: 0,
                present: 1,
            },
            None => OptionalBool {
                value: 0,
                present: 0,
            },
        }
    }
}

impl OptionalTxnId {
    pub fn decode(self) -> Option<TxnId>
        ensures { result ≡ decode_txn self }
    {
        when(self.present, self.value)
    }

    pub fn encode(x: Option<TxnId>) -> OptionalTxnId
        ensures { decode_txn result ≡ x }
    {
        match x {
            Some(value) => OptionalTxnId { value, present: 1 },
            None => OptionalTxnId {
                value: TxnId {
                    most_sig_bits: 0,
                    least_sig_bits: 0,
                },
                present: 0,
            },
        }
    }
}

impl OptionalMessageId {
    pub fn decode(self) -> Option<MessageId>
        ensures { result ≡ decode_message_id self }
    {
        when(self.present, self.value)
    }

    pub fn encode(x: Option<MessageId>) -> OptionalMessageId
        ensures { decode_message_id result ≡ x }
    {
        match x {
            Some(value) => OptionalMessageId { value, present: 1 },
            None => OptionalMessageId {
                value: MessageId {
                    ledger_id: 0,
                    entry_id: 0,
                    partition: 0,
                    batch_index: 0,
                    batch_size: 0,
                },
                present: 0,
            },
        }
    }
}

impl OptionalSequenceId {
    pub fn decode(self) -> Option<SequenceId>
        ensures { result ≡ decode_sequence_id self }
    {
        when(self.present, self.value)
    }

    pub fn encode(x: Option<SequenceId>) -> OptionalSequenceId
        ensures { decode_sequence_id result ≡ x }
    {
        match x {
            Some(value) => OptionalSequenceId { value, present: 1 },
            None => OptionalSequenceId {
                value: SequenceId(0),
                present: 0,
            },
        }
    }
}

impl OptionalUuid {
    pub fn decode(self) -> Option<[u8; 36]>
        ensures { result ≡ decode_uuid self }
    {
        when(self.present, self.value)
    }

    pub fn encode(x: Option<[u8; 36]>) -> OptionalUuid
        ensures { decode_uuid result ≡ x }
    {
        match x {
            Some(value) => OptionalUuid { value, present: 1 },
            None => OptionalUuid {
                value: [0; 36],
                present: 0,
            },
        }
    }
}
