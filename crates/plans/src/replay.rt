// What a replay does to the scalars, and when it is refused (document 01, 'receipts, errors, snapshot, replay').
ghost use Rattle.std.specs.Prelude.{◌≡◌};
ghost use Rattle.plans.specs.Replay.{fronted_core, fronted_entry, replay_count, replay_answer};

use crate::delta::{Pushed, put_at};
use crate::state::Core;
use rules::rings::{Rings, too_many};
use types::entry::OpSend;
use types::error::ProducerError;
use types::frame::FrameRecord;

impl Core {
    // A record of so many frames in front of those that wait; of a batched entry there is none.
    pub fn front(self, frame: Option<FrameRecord>, frames: usize) -> Pushed<FrameRecord>
        ensures { result ≡ fronted_core frame frames self }
    {
        let outbound = self.rings.outbound;
        let waiting = frames.saturating_add(self.rings.waiting);
        match frame {
            Some(frame) => {
                let rings = Rings {
                    outbound: outbound.longer_before(),
                    waiting,
                    ..self.rings
                };
                Pushed {
                    core: Core { rings, ..self },
                    put: put_at(outbound.place_before(), frame),
                }
            }
            None => {
                let rings = Rings {
                    waiting,
                    ..self.rings
                };
                Pushed {
                    core: Core { rings, ..self },
                    put: None,
                }
            }
        }
    }

    // An entry in front of those that are pending, under its own id, which is answerable.
    pub fn front_entry(self, op: OpSend) -> Pushed<OpSend>
        ensures { result ≡ fronted_entry op self }
    {
        let pending = self.rings.pending;
        let rings = Rings {
            pending: pending.longer_before(),
            ..self.rings
        };
        let marked = OpSend {
            answerable: true,
            ..op
        };
        Pushed {
            core: Core { rings, ..self },
            put: put_at(pending.place_before(), marked),
        }
    }

    // `replay_pending_outbound` is refused by 4 only.
    pub fn replay_count(self, frames: usize) -> Result<usize, ProducerError>
        ensures { result ≡ replay_count frames self }
    {
        if too_many::<{ Rings::OUTBOUND }>(self.rings.waiting, frames) {
            Err(ProducerError::OutboundFull)
        } else {
            Ok(frames)
        }
    }

    // `replay_snapshots` is refused by 12, then 7, then 4.
    pub fn replay_answer(
        self,
        well_formed: bool,
        entries: usize,
        frames: usize,
    ) -> Result<(), ProducerError>
        ensures { result ≡ replay_answer well_formed entries frames self }
    {
        let pending_full = too_many::<{ Rings::PENDING }>(entries, self.rings.pending.count());
        let outbound_full = too_many::<{ Rings::OUTBOUND }>(self.rings.waiting, frames);
        if !well_formed {
            Err(ProducerError::MalformedEntry)
        } else if pending_full {
            Err(ProducerError::PendingFull)
        } else if outbound_full {
            Err(ProducerError::OutboundFull)
        } else {
            Ok(())
        }
    }
}
