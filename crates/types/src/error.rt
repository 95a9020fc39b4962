// The refusals of document 01.
ghost use Rattle.std.specs.Prelude.{◌≡◌};
ghost use Rattle.types.specs.Refusals.{number_of};

// Why a call was refused. The table 'Who can cause a refusal' numbers them from 1 in this order.
#[derive(Clone, Copy, PartialEq, Eq)]
pub enum ProducerError {
    // The producer is closed.
    Closed,
    // A part ends outside the store.
    PartOutside,
    // A payload, key, schema version, name or reservation over its bound.
    OverBound,
    // More than 1,024 frames would wait.
    OutboundFull,
    // 512 batched messages are held.
    HeldFull,
    // The payload is over the limit and chunking is off.
    MessageTooLarge {
        size: usize,
        max_message_size: usize,
    },
    // 256 entries are pending.
    PendingFull,
    // A setting over its bound.
    SettingOverBound,
    // The lent buffer or table is shorter than what would be written.
    TooShort,
    // No frame waits.
    NoFrame,
    // The id is not answerable.
    NotAnswerable,
    // An entry of a replay table is malformed.
    MalformedEntry,
}

impl ProducerError {
    pub fn number(self) -> u32
        ensures { result ≡ number_of self }
    {
        match self {
            ProducerError::Closed => 1,
            ProducerError::PartOutside => 2,
            ProducerError::OverBound => 3,
            ProducerError::OutboundFull => 4,
            ProducerError::HeldFull => 5,
            ProducerError::MessageTooLarge {
                size: _,
                max_message_size: _,
            } => 6,
            ProducerError::PendingFull => 7,
            ProducerError::SettingOverBound => 8,
            ProducerError::TooShort => 9,
            ProducerError::NoFrame => 10,
            ProducerError::NotAnswerable => 11,
            ProducerError::MalformedEntry => 12,
        }
    }
}
