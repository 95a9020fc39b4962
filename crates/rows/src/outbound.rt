// A frame as it is handed out.
ghost use Rattle.std.specs.Prelude.{◌≡◌};
ghost use Rattle.rows.specs.Outbound.{decode_command, decode_name, decode_metadata, decode_outbound};

use crate::optional::{
    OptionalBool, OptionalI32, OptionalI64, OptionalMessageId, OptionalPart, OptionalSequenceId,
    OptionalTxnId, OptionalU64, OptionalUuid,
};
use types::frame::ProducerName;
use types::outbound::{CommandSend, FrameName, MessageMetadata, OutboundFrame};
use types::types::{ProducerHandle, SequenceId};

#[derive(Clone, Copy)]
#[repr(C)]
pub struct CommandRow {
    pub producer_id: ProducerHandle,
    pub sequence_id: SequenceId,
    pub num_messages: u64,
    pub txn_id: OptionalTxnId,
    pub highest_sequence_id: OptionalSequenceId,
    pub message_id: OptionalMessageId,
    pub is_chunk: OptionalBool,
}

// The message's own name, a part of the store, where there is one; else the producer's.
#[derive(Clone, Copy)]
#[repr(C)]
pub struct NameRow {
    pub own: OptionalPart,
    pub producer: ProducerName,
}

#[derive(Clone, Copy)]
#[repr(C)]
pub struct MetadataRow {
    pub producer_name: NameRow,
    pub sequence_id: SequenceId,
    pub publish_time: u64,
    pub partition_key: OptionalPart,
    pub ordering_key: OptionalPart,
    pub schema_version: OptionalPart,
    pub event_time: OptionalU64,
    pub deliver_at_time: OptionalI64,
    pub uncompressed_size: OptionalU64,
    pub txn_id: OptionalTxnId,
    pub highest_sequence_id: OptionalSequenceId,
    pub num_messages_in_batch: OptionalU64,
    pub chunk_id: OptionalU64,
    pub num_chunks_from_msg: OptionalU64,
    pub total_chunk_msg_size: OptionalU64,
    pub compression: OptionalI32,
    pub null_value: OptionalBool,
    pub null_partition_key: OptionalBool,
    pub uuid: OptionalUuid,
}

#[derive(Clone, Copy)]
#[repr(C)]
pub struct OutboundRow {
    pub command: CommandRow,
    pub metadata: MetadataRow,
    pub payload_len: usize,
}

impl CommandRow {
    pub fn decode(self) -> CommandSend
        ensures { result ≡ decode_command self }
    {
        CommandSend {
            producer_id: self.producer_id,
            sequence_id: self.sequence_id,
            num_messages: self.num_messages,
            txn_id: self.txn_id.decode(),
            highest_sequence_id: self.highest_sequence_id.decode(),
            is_chunk: self.is_chunk.decode(),
            message_id: self.message_id.decode(),
        }
    }

    pub fn encode(c: CommandSend) -> CommandRow
        ensures { decode_command result ≡ c }
    {
        CommandRow {
            producer_id: c.producer_id,
            sequence_id: c.sequence_id,
            num_messages: c.num_messages,
            txn_id: OptionalTxnId::encode(c.txn_id),
            highest_sequence_id: OptionalSequenceId::encode(c.highest_sequence_id),
            message_id: OptionalMessageId::encode(c.message_id),
            is_chunk: OptionalBool::encode(c.is_chunk),
        }
    }
}

impl NameRow {
    pub fn decode(self) -> FrameName
        ensures { result ≡ decode_name self }
    {
        match self.own.decode() {
            Some(part) => FrameName::Own(part),
            None => FrameName::Producer(self.producer),
        }
    }

    pub fn encode(n: FrameName) -> NameRow
        ensures { decode_name result ≡ n }
    {
        match n {
            FrameName::Own(part) => NameRow {
                own: OptionalPart::encode(Some(part)),
                producer: ProducerName::empty(),
            },
            FrameName::Producer(producer) => NameRow {
                own: OptionalPart::encode(None),
                producer,
            },
        }
    }
}

impl MetadataRow {
    pub fn decode(self) -> MessageMetadata
        ensures { result ≡ decode_metadata self }
    {
        MessageMetadata {
            producer_name: self.producer_name.decode(),
            sequence_id: self.sequence_id,
            publish_time: self.publish_time,
            partition_key: self.partition_key.decode(),
            ordering_key: self.ordering_key.decode(),
            schema_version: self.schema_version.decode(),
            event_time: self.event_time.decode(),
            null_value: self.null_value.decode(),
            null_partition_key: self.null_partition_key.decode(),
            deliver_at_time: self.deliver_at_time.decode(),
            compression: self.compression.decode(),
            uncompressed_size: self.uncompressed_size.decode(),
            txn_id: self.txn_id.decode(),
            highest_sequence_id: self.highest_sequence_id.decode(),
            num_messages_in_batch: self.num_messages_in_batch.decode(),
            chunk_id: self.chunk_id.decode(),
            num_chunks_from_msg: self.num_chunks_from_msg.decode(),
            total_chunk_msg_size: self.total_chunk_msg_size.decode(),
            uuid: self.uuid.decode(),
        }
    }

    pub fn encode(m: MessageMetadata) -> MetadataRow
        ensures { decode_metadata result ≡ m }
    {
        MetadataRow {
            producer_name: NameRow::encode(m.producer_name),
            sequence_id: m.sequence_id,
            publish_time: m.publish_time,
            partition_key: OptionalPart::encode(m.partition_key),
            ordering_key: OptionalPart::encode(m.ordering_key),
            schema_version: OptionalPart::encode(m.schema_version),
            event_time: OptionalU64::encode(m.event_time),
            deliver_at_time: OptionalI64::encode(m.deliver_at_time),
            uncompressed_size: OptionalU64::encode(m.uncompressed_size),
            txn_id: OptionalTxnId::encode(m.txn_id),
            highest_sequence_id: OptionalSequenceId::encode(m.highest_sequence_id),
            num_messages_in_batch: OptionalU64::encode(m.num_messages_in_batch),
            chunk_id: OptionalU64::encode(m.chunk_id),
            num_chunks_from_msg: OptionalU64::encode(m.num_chunks_from_msg),
            total_chunk_msg_size: OptionalU64::encode(m.total_chunk_msg_size),
            compression: OptionalI32::encode(m.compression),
            null_value: OptionalBool::encode(m.null_value),
            null_partition_key: OptionalBool::encode(m.null_partition_key),
            uuid: OptionalUuid::encode(m.uuid),
        }
    }
}

impl OutboundRow {
    pub fn decode(self) -> OutboundFrame
        ensures { result ≡ decode_outbound self }
    {
        OutboundFrame {
            command: self.command.decode(),
            metadata: self.metadata.decode(),
            payload_len: self.payload_len,
        }
    }

    pub fn encode(f: OutboundFrame) -> OutboundRow
        ensures { decode_outbound result ≡ f }
    {
        OutboundRow {
            command: CommandRow::encode(f.command),
            metadata: MetadataRow::encode(f.metadata),
            payload_len: f.payload_len,
        }
    }
}
