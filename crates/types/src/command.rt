// What the broker sends back of a publish.
use crate::types::{MessageIdData, ProducerHandle, SequenceId};

#[derive(Clone, Copy, PartialEq, Eq)]
pub struct CommandSendReceipt {
    pub producer_id: ProducerHandle,
    pub sequence_id: SequenceId,
    pub message_id: Option<MessageIdData>,
}

// The error's text is left out.
#[derive(Clone, Copy, PartialEq, Eq)]
pub struct CommandSendError {
    pub producer_id: ProducerHandle,
    pub sequence_id: SequenceId,
    pub error: i32,
}
