// Joining the open batch, and flushing it (document 01, 'batch').
ghost use Rattle.std.specs.Prelude.{◌≡◌};
ghost use Rattle.queue.specs.Batch.{can_add_to_batch, may_join, is_full, batch_record};
ghost use Rattle.plans.specs.Batch.{flushed_core, flushed_if, flush_answer, flush_planned};

use crate::delta::{FlushDelta, Pushed};
use crate::state::Core;
use rules::batch::{can_add, is_batchable, makes_frame};
use rules::blank::no_message;
use rules::rings::{Rings, too_many};
use types::batch::BatchContainer;
use types::error::ProducerError;
use types::frame::{BatchFrame, FrameKind, FrameRecord};
use types::message::OutgoingMessage;

impl Core {
    pub fn can_add_to_batch(self, payload_size: usize, num_messages: i32) -> bool
        ensures { result ≡ can_add_to_batch self.settings self.batch payload_size num_messages }
    {
        can_add(self.settings, self.batch, payload_size, num_messages)
    }

    pub fn may_join(self, m: OutgoingMessage) -> bool
        ensures { result ≡ may_join self.settings self.batch m }
    {
        is_batchable(m) & self.can_add_to_batch(m.payload.len, m.num_messages)
    }

    // A count or a sum of payloads has reached its limit.
    pub fn is_full(self, count: usize, size: usize) -> bool
        ensures { result ≡ is_full self.settings count size }
    {
        let limits = self.settings.limits;
        (limits.max_messages_in_batch <= count) | (limits.max_batch_size_bytes <= size)
    }

    // The frame of the open batch: the producer's name as it is now, the publish time of the call that flushes.
    pub fn batch_record(self, publish_time: u64) -> FrameRecord
        ensures { result ≡ batch_record self.settings publish_time self.batch }
    {
        let frame = BatchFrame {
            num_messages: self.batch.len,
            current_size_bytes: self.batch.current_size_bytes,
            highest_sequence_id: self.batch.highest_sequence_id,
            txn_id: self.batch.txn_id,
        };
        FrameRecord {
            sequence_id: self.batch.lowest_sequence_id,
            publish_time,
            producer_name: self.settings.name,
            uuid: [0; 16],
            message: no_message(),
            kind: FrameKind::Batch(frame),
        }
    }

    // The open batch becomes a frame; its messages stay held.
    pub fn flush(self, publish_time: u64) -> Pushed<FrameRecord>
        ensures { result ≡ flushed_core publish_time self }
    {
        let counted = self.count(self.batch.len, self.batch.encoded_len);
        let p = counted.push(self.batch_record(publish_time), 1);
        Pushed {
            core: Core {
                batch: BatchContainer::empty(),
                ..p.core
            },
            put: p.put,
        }
    }

    pub fn flush_if(self, asked: bool, publish_time: u64) -> Pushed<FrameRecord>
        ensures { result ≡ flushed_if asked publish_time self }
    {
        if asked {
            self.flush(publish_time)
        } else {
            Pushed {
                core: self,
                put: None,
            }
        }
    }

    // Count 0 for an empty batch or a closed producer; 4 only where a frame would be made.
    pub fn flush_answer(self) -> Result<usize, ProducerError>
        ensures { result ≡ flush_answer self }
    {
        if (self.batch.len == 0) | self.settings.switches.closed {
            Ok(0)
        } else if too_many::<{ Rings::OUTBOUND }>(self.rings.waiting, 1) {
            Err(ProducerError::OutboundFull)
        } else {
            Ok(1)
        }
    }

    pub fn plan_flush(self, publish_time: u64) -> FlushDelta
        ensures { result ≡ flush_planned publish_time self }
    {
        let answer = self.flush_answer();
        let p = self.flush_if(makes_frame(answer), publish_time);
        FlushDelta {
            answer,
            core: p.core,
            frame: p.put,
        }
    }
}
