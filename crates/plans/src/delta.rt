// What plans answer: the scalars after a call, and which records go to which places.
ghost use Rattle.std.specs.Prelude.{◌≡◌, set};
ghost use Rattle.plans.specs.Delta.{put_at, pushed, counted_core};

use crate::state::Core;
use rules::rings::Rings;
use types::error::ProducerError;
use types::frame::FrameRecord;
use types::stats::Counters;

// A record, and the place of its ring that it goes to.
#[derive(Clone, Copy)]
pub struct Put<T> {
    pub at: usize,
    pub value: T,
}

impl<T: Copy> Put<T> {
    // A place outside the ring stores nothing.
    pub fn store(self, slots: &mut [T])
        ensures { slots.new ≡ set slots.old self.at self.value }
    {
        if self.at < slots.len() {
            slots[self.at] = self.value;
        }
    }
}

// The scalars after one push, and what it stores: nothing where the ring is full.
#[derive(Clone, Copy)]
pub struct Pushed<T> {
    pub core: Core,
    pub put: Option<Put<T>>,
}

// Of a flush.
#[derive(Clone, Copy)]
pub struct FlushDelta {
    pub answer: Result<usize, ProducerError>,
    pub core: Core,
    pub frame: Option<Put<FrameRecord>>,
}

// Nothing is stored where there is no place.
pub(crate) fn put_at<T: Copy>(place: Option<usize>, value: T) -> Option<Put<T>>
    ensures { result ≡ put_at place value }
{
    match place {
        Some(at) => Some(Put { at, value }),
        None => None,
    }
}

impl Core {
    // A record of so many frames at the end of those that wait.
    pub fn push(self, frame: FrameRecord, frames: usize) -> Pushed<FrameRecord>
        ensures { result ≡ pushed frame frames self }
    {
        let outbound = self.rings.outbound;
        let rings = Rings {
            outbound: outbound.longer_behind(),
            waiting: self.rings.waiting.saturating_add(frames),
            ..self.rings
        };
        Pushed {
            core: Core { rings, ..self },
            put: put_at(outbound.place_behind(), frame),
        }
    }

    // Messages and bytes of frames that are pushed.
    pub fn count(self, messages: usize, bytes: usize) -> Core
        ensures { result ≡ counted_core messages bytes self }
    {
        let counters = Counters {
            total_msgs_sent: self
                .counters
                .total_msgs_sent
                .saturating_add(messages as u64),
            total_bytes_sent: self.counters.total_bytes_sent.saturating_add(bytes as u64),
            ..self.counters
        };
        Core { counters, ..self }
    }
}
