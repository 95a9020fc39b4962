// What the broker sends back of a publish.
ghost use Rattle.std.specs.Prelude.{◌≡◌};
ghost use Rattle.rows.specs.Command.{decode_message_id_data, decode_receipt, decode_error};

use crate::optional::OptionalI32;
use types::command::{CommandSendError, CommandSendReceipt};
use types::types::{MessageIdData, ProducerHandle, SequenceId};

// A message id as the protocol has it, where there is one.
#[derive(Clone, Copy)]
#[repr(C)]
pub struct MessageIdDataRow {
    pub ledger_id: u64,
    pub entry_id: u64,
    pub partition: OptionalI32,
    pub batch_index: OptionalI32,
    pub batch_size: OptionalI32,
    pub present: u8,
}

#[derive(Clone, Copy)]
#[repr(C)]
pub struct ReceiptRow {
    pub producer_id: ProducerHandle,
    pub sequence_id: SequenceId,
    pub message_id: MessageIdDataRow,
}

#[derive(Clone, Copy)]
#[repr(C)]
pub struct ErrorRow {
    pub producer_id: ProducerHandle,
    pub sequence_id: SequenceId,
    pub error: i32,
}

impl MessageIdDataRow {
    pub fn decode(self) -> Option<MessageIdData>
        ensures { result ≡ decode_message_id_data self }
    {
        if self.present == 0 {
            None
        } else {
            Some(MessageIdData {
                ledger_id: self.ledger_id,
                entry_id: self.entry_id,
                partition: self.partition.decode(),
                batch_index: self.batch_index.decode(),
                batch_size: self.batch_size.decode(),
            })
        }
    }
}

impl ReceiptRow {
    pub fn decode(self) -> CommandSendReceipt
        ensures { result ≡ decode_receipt self }
    {
        CommandSendReceipt {
            producer_id: self.producer_id,
            sequence_id: self.sequence_id,
            message_id: self.message_id.decode(),
        }
    }
}

impl ErrorRow {
    pub fn decode(self) -> CommandSendError
        ensures { result ≡ decode_error self }
    {
        CommandSendError {
            producer_id: self.producer_id,
            sequence_id: self.sequence_id,
            error: self.error,
        }
    }
}
