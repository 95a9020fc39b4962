// What a send brings, and the frame record of an entry (document 01, 'sends').
ghost use Rattle.std.specs.Prelude.{◌≡◌};
ghost use Rattle.plans.specs.Send.{frame_of};

use types::entry::Publish;
use types::frame::{FrameKind, FrameRecord};
use types::memory_limit::MemoryReservation;
use types::message::OutgoingMessage;
use types::types::SequenceId;

#[derive(Clone, Copy)]
pub struct Sending {
    pub message: OutgoingMessage,
    pub reservation: MemoryReservation,
    // For chunks.
    pub uuid: [u8; 16],
    pub publish_time: u64,
    pub now: u64,
}

pub fn frame_of(sequence_id: SequenceId, p: Publish, kind: FrameKind) -> FrameRecord
    ensures { result ≡ frame_of sequence_id.0 p kind }
{
    let uuid = p.uuid;
    FrameRecord {
        sequence_id,
        publish_time: p.publish_time,
        producer_name: p.producer_name,
        uuid,
        message: p.message,
        kind,
    }
}
