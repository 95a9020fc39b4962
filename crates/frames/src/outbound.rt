// The front frame as it goes out: command and metadata.
ghost use Rattle.std.specs.Prelude.{◌≡◌};
ghost use Rattle.frames.specs.Outbound.{name_out, single_out, chunk_out, batch_out, frame_out};

use rules::numbers::message_count;
use types::frame::{BatchFrame, ChunkedMessageContext, FrameKind, FrameRecord};
use types::outbound::{CommandSend, FrameName, MessageMetadata, OutboundFrame};
use types::types::ProducerHandle;
use wire::uuid::uuid_text;

// The front record's next frame: whose it is, and how long its payload.
#[derive(Clone, Copy)]
pub struct FrontFrame {
    pub handle: ProducerHandle,
    pub front: FrameRecord,
    pub payload_len: usize,
}

impl FrontFrame {
    fn name(self) -> FrameName
        ensures { result ≡ name_out self.front.message.producer_name self.front.producer_name }
    {
        let own = self.front.message.producer_name;
        if own.len == 0 {
            FrameName::Producer(self.front.producer_name.clipped())
        } else {
            FrameName::Own(own)
        }
    }

    // It bears max(num_messages, 1) in its command only, and its size only above 0.
    fn single(self) -> OutboundFrame
        ensures { result ≡ single_out self.handle self.front self.payload_len }
    {
        let front = self.front;
        let m = front.message;
        let size = u64::from(m.uncompressed_size);
        OutboundFrame {
            command: CommandSend {
                producer_id: self.handle,
                sequence_id: front.sequence_id,
                num_messages: message_count(m.num_messages) as u64,
                txn_id: m.txn_id,
                highest_sequence_id: None,
                is_chunk: None,
                message_id: m.source_message_id,
            },
            metadata: MessageMetadata {
                producer_name: self.name(),
                sequence_id: front.sequence_id,
                publish_time: front.publish_time,
                partition_key: m.partition_key,
                ordering_key: m.ordering_key,
                schema_version: m.schema_version,
                event_time: m.event_time,
                null_value: m.null_value,
                null_partition_key: m.null_partition_key,
                deliver_at_time: m.deliver_at_time,
                compression: m.compression,
                uncompressed_size: (0 < size).then_some(size),
                txn_id: m.txn_id,
                highest_sequence_id: None,
                num_messages_in_batch: None,
                chunk_id: None,
                num_chunks_from_msg: None,
                total_chunk_msg_size: None,
                uuid: None,
            },
            payload_len: self.payload_len,
        }
    }

    // As the message's single frame, but for a count of 1, a size always, and which chunk it is.
    fn chunk(self, c: ChunkedMessageContext) -> OutboundFrame
        ensures { result ≡ chunk_out self.handle self.front c self.payload_len }
    {
        let m = self.front.message;
        let single = self.single();
        OutboundFrame {
            command: CommandSend {
                num_messages: 1,
                is_chunk: Some(true),
                ..single.command
            },
            metadata: MessageMetadata {
                uncompressed_size: Some(u64::from(m.uncompressed_size)),
                chunk_id: Some(u64::from(c.next_chunk)),
                num_chunks_from_msg: Some(u64::from(c.total_chunks)),
                total_chunk_msg_size: Some(m.payload.len as u64),
                uuid: Some(uuid_text(self.front.uuid)),
                ..single.metadata
            },
            ..single
        }
    }

    fn batch(self, b: BatchFrame) -> OutboundFrame
        ensures { result ≡ batch_out self.handle self.front b self.payload_len }
    {
        let front = self.front;
        let size = b.current_size_bytes as u64;
        let high = b.highest_sequence_id;
        let highest = (front.sequence_id.0 < high.0).then_some(high);
        let count = b.num_messages as u64;
        OutboundFrame {
            command: CommandSend {
                producer_id: self.handle,
                sequence_id: front.sequence_id,
                num_messages: count,
                txn_id: b.txn_id,
                highest_sequence_id: highest,
                is_chunk: None,
                message_id: None,
            },
            metadata: MessageMetadata {
                producer_name: FrameName::Producer(front.producer_name.clipped()),
                sequence_id: front.sequence_id,
                publish_time: front.publish_time,
                partition_key: None,
                ordering_key: None,
                schema_version: None,
                event_time: None,
                null_value: None,
                null_partition_key: None,
                deliver_at_time: None,
                compression: None,
                uncompressed_size: (size < 0x1_0000_0000).then_some(size),
                txn_id: b.txn_id,
                highest_sequence_id: highest,
                num_messages_in_batch: Some(count),
                chunk_id: None,
                num_chunks_from_msg: None,
                total_chunk_msg_size: None,
                uuid: None,
            },
            payload_len: self.payload_len,
        }
    }

    pub fn frame(self) -> OutboundFrame
        ensures { result ≡ frame_out self.handle self.front self.front.kind self.payload_len }
    {
        match self.front.kind {
            FrameKind::Single => self.single(),
            FrameKind::Batch(b) => self.batch(b),
            FrameKind::Chunked(c) => self.chunk(c),
        }
    }
}
