// A message, and what a batch keeps of one.
ghost use Rattle.std.specs.Prelude.{◌≡◌};
ghost use Rattle.queue.specs.Batch.{single_of};
ghost use Rattle.rows.specs.Message.{decode_message, decode_single};

use crate::optional::{
    OptionalBool, OptionalI32, OptionalI64, OptionalMessageId, OptionalPart, OptionalTxnId,
    OptionalU64,
};
use types::message::{OutgoingMessage, Part, SingleMessage};

#[derive(Clone, Copy)]
#[repr(C)]
pub struct MessageRow {
    pub payload: Part,
    pub partition_key: OptionalPart,
    pub ordering_key: OptionalPart,
    pub schema_version: OptionalPart,
    pub producer_name: Part,
    pub event_time: OptionalU64,
    pub deliver_at_time: OptionalI64,
    pub txn_id: OptionalTxnId,
    pub source_message_id: OptionalMessageId,
    pub compression: OptionalI32,
    pub uncompressed_size: u32,
    pub num_messages: i32,
    pub null_value: OptionalBool,
    pub null_partition_key: OptionalBool,
}

#[derive(Clone, Copy)]
#[repr(C)]
pub struct SingleRow {
    pub payload: Part,
    pub partition_key: OptionalPart,
    pub ordering_key: OptionalPart,
    pub event_time: OptionalU64,
    pub null_value: OptionalBool,
    pub null_partition_key: OptionalBool,
}

impl MessageRow {
    pub fn decode(self) -> OutgoingMessage
        ensures { result ≡ decode_message self }
    {
        OutgoingMessage {
            payload: self.payload,
            partition_key: self.partition_key.decode(),
            ordering_key: self.ordering_key.decode(),
            schema_version: self.schema_version.decode(),
            producer_name: self.producer_name,
            event_time: self.event_time.decode(),
            null_value: self.null_value.decode(),
            null_partition_key: self.null_partition_key.decode(),
            deliver_at_time: self.deliver_at_time.decode(),
            compression: self.compression.decode(),
            uncompressed_size: self.uncompressed_size,
            num_messages: self.num_messages,
            txn_id: self.txn_id.decode(),
            source_message_id: self.source_message_id.decode(),
        }
    }

    pub fn encode(m: OutgoingMessage) -> MessageRow
        ensures { decode_message result ≡ m }
    {
        MessageRow {
            payload: m.payload,
            partition_key: OptionalPart::encode(m.partition_key),
            ordering_key: OptionalPart::encode(m.ordering_key),
            schema_version: OptionalPart::encode(m.schema_version),
            producer_name: m.producer_name,
            event_time: OptionalU64::encode(m.event_time),
            deliver_at_time: OptionalI64::encode(m.deliver_at_time),
            txn_id: OptionalTxnId::encode(m.txn_id),
            source_message_id: OptionalMessageId::encode(m.source_message_id),
            compression: OptionalI32::encode(m.compression),
            uncompressed_size: m.uncompressed_size,
            num_messages: m.num_messages,
            null_value: OptionalBool::encode(m.null_value),
            null_partition_key: OptionalBool::encode(m.null_partition_key),
        }
    }
}

impl SingleRow {
    // What a batch keeps of a message.
    pub fn of(m: &MessageRow) -> SingleRow
        ensures { decode_single result ≡ single_of (decode_message m.now) }
    {
        SingleRow {
            payload: m.payload,
            partition_key: m.partition_key,
            ordering_key: m.ordering_key,
            event_time: m.event_time,
            null_value: m.null_value,
            null_partition_key: m.null_partition_key,
        }
    }

    pub fn decode(self) -> SingleMessage
        ensures { result ≡ decode_single self }
    {
        SingleMessage {
            payload: self.payload,
            partition_key: self.partition_key.decode(),
            ordering_key: self.ordering_key.decode(),
            event_time: self.event_time.decode(),
            null_value: self.null_value.decode(),
            null_partition_key: self.null_partition_key.decode(),
        }
    }

    pub fn encode(m: SingleMessage) -> SingleRow
        ensures { decode_single result ≡ m }
    {
        SingleRow {
            payload: m.payload,
            partition_key: OptionalPart::encode(m.partition_key),
            ordering_key: OptionalPart::encode(m.ordering_key),
            event_time: OptionalU64::encode(m.event_time),
            null_value: OptionalBool::encode(m.null_value),
            null_partition_key: OptionalBool::encode(m.null_partition_key),
        }
    }
}
