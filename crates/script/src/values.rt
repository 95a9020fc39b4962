// What the operations of a script bring: messages, entries, receipts and errors (docs/SCRIPT.md).
use crate::read::{Get, Place};
use types::command::{CommandSendError, CommandSendReceipt};
use types::entry::{OpSend, Publish, Replay};
use types::frame::ProducerName;
use types::memory_limit::MemoryReservation;
use types::message::OutgoingMessage;

impl Get for OutgoingMessage {
    fn get(place: Place) -> OutgoingMessage {
        OutgoingMessage {
            payload: place.get(),
            partition_key: place.behind(16).get(),
            ordering_key: place.behind(33).get(),
            schema_version: place.behind(50).get(),
            producer_name: place.behind(67).get(),
            event_time: place.behind(83).get(),
            null_value: place.behind(92).get(),
            null_partition_key: place.behind(94).get(),
            deliver_at_time: place.behind(96).get(),
            compression: place.behind(105).get(),
            uncompressed_size: place.behind(110).get(),
            num_messages: place.behind(114).get(),
            txn_id: place.behind(118).get(),
            source_message_id: place.behind(135).get(),
        }
    }
}

impl Get for Replay {
    fn get(place: Place) -> Replay {
        match place.get::<u8>() {
            0 => Replay::Batched,
            1 => Replay::Single,
            _ => Replay::Chunked {
                max_chunk_size: place.behind(1).get(),
                total_chunks: place.behind(5).get(),
            },
        }
    }
}

impl Get for ProducerName {
    fn get(place: Place) -> ProducerName {
        ProducerName {
            len: usize::from(place.get::<u8>()),
            bytes: place.behind(1).get(),
        }
    }
}

impl Get for MemoryReservation {
    fn get(place: Place) -> MemoryReservation {
        MemoryReservation { bytes: place.get() }
    }
}

// An entry of an explicit table. A replay does not look at its mark.
impl Get for OpSend {
    fn get(place: Place) -> OpSend {
        OpSend {
            sequence_id: place.get(),
            answerable: false,
            publish: Publish {
                num_messages: place.behind(8).get(),
                enqueued_at: place.behind(12).get(),
                reservation: place.behind(20).get(),
                replay: place.behind(28).get(),
                message: place.behind(37).get(),
                publish_time: place.behind(201).get(),
                producer_name: place.behind(209).get(),
                uuid: place.behind(274).get(),
            },
        }
    }
}

impl Get for CommandSendReceipt {
    fn get(place: Place) -> CommandSendReceipt {
        CommandSendReceipt {
            producer_id: place.get(),
            sequence_id: place.behind(8).get(),
            message_id: place.behind(16).get(),
        }
    }
}

impl Get for CommandSendError {
    fn get(place: Place) -> CommandSendError {
        CommandSendError {
            producer_id: place.get(),
            sequence_id: place.behind(8).get(),
            error: place.behind(16).get(),
        }
    }
}
