// Identifiers.
ghost use Rattle.std.specs.Prelude.{◌≡◌};
ghost use Rattle.types.specs.Ids.{from_pb, of_receipt, with_all};

// A producer id, which the connection gives out.
#[derive(Clone, Copy, PartialEq, Eq)]
#[repr(C)]
pub struct ProducerHandle(pub u64);

// The number of a publish, which its receipt names.
#[derive(Clone, Copy, PartialEq, Eq)]
#[repr(C)]
pub struct SequenceId(pub u64);

// Where a message is stored.
#[derive(Clone, Copy, PartialEq, Eq)]
#[repr(C)]
pub struct MessageId {
    pub ledger_id: u64,
    pub entry_id: u64,
    pub partition: i32,
    pub batch_index: i32,
    pub batch_size: i32,
}

// A message id as the protocol has it.
#[derive(Clone, Copy, PartialEq, Eq)]
pub struct MessageIdData {
    pub ledger_id: u64,
    pub entry_id: u64,
    pub partition: Option<i32>,
    pub batch_index: Option<i32>,
    pub batch_size: Option<i32>,
}

// All numbers are there.
impl From<MessageId> for MessageIdData {
    ghost from_gives = { λ id pb. pb ≡ with_all id };

    fn from(id: MessageId) -> MessageIdData {
        MessageIdData {
            ledger_id: id.ledger_id,
            entry_id: id.entry_id,
            partition: Some(id.partition),
            batch_index: Some(id.batch_index),
            batch_size: Some(id.batch_size),
        }
    }
}

impl MessageId {
    // -1 for what the protocol leaves out.
    pub fn from_pb(pb: MessageIdData) -> MessageId
        ensures { result ≡ from_pb pb }
    {
        MessageId {
            ledger_id: pb.ledger_id,
            entry_id: pb.entry_id,
            partition: pb.partition.unwrap_or(-1),
            batch_index: pb.batch_index.unwrap_or(-1),
            batch_size: pb.batch_size.unwrap_or(-1),
        }
    }

    // The id that a receipt answers, also one that brings none.
    pub fn of_receipt(id: Option<MessageIdData>) -> MessageId
        ensures { result ≡ of_receipt id }
    {
        match id {
            Some(pb) => MessageId::from_pb(pb),
            None => MessageId {
                ledger_id: 0,
                entry_id: 0,
                partition: -1,
                batch_index: -1,
                batch_size: 0,
            },
        }
    }
}
