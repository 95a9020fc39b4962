// What can be asked of a producer.
ghost use Rattle.std.specs.Prelude.{[]};
ghost use Rattle.queue.specs.Queue.{done};
ghost use Rattle.queue.specs.Run.{query, send_deadline, batch_deadline, batch_elapsed, can_add, waiting_count, headroom, statistics};
ghost use Rattle.producer.specs.Meets.{Meets};

use crate::state::ProducerState;
use types::stats::ProducerStats;
use upkeep::deadline::elapsed;
use upkeep::stats::{outbound_len_of, stats_of};

impl ProducerState {
    pub fn send_deadline(&self) -> Option<u64>
        ensures { Meets [] (query send_deadline) self.now self.now (done result) }
    {
        let at = self.core.rings.decode().pending.slot(0);
        let front = self.pending[at].decode();
        self.core.decode().next_send_deadline(front.enqueued_at)
    }

    pub fn batch_deadline(&self) -> Option<u64>
        ensures { Meets [] (query batch_deadline) self.now self.now (done result) }
    {
        self.core.decode().next_batch_deadline()
    }

    pub fn is_batch_due(&self, now: u64) -> bool
        ensures { Meets [] (query (batch_elapsed now)) self.now self.now (done result) }
    {
        elapsed(now, self.core.decode().next_batch_deadline())
    }

    // Whether a message of this payload size and count may join the open batch, if it is batchable.
    pub fn may_add(&self, payload_size: usize, num_messages: i32) -> bool
        ensures { Meets [] (query (can_add payload_size num_messages)) self.now self.now (done result) }
    {
        self.core
            .decode()
            .can_add_to_batch(payload_size, num_messages)
    }

    // The waiting frames, chunks counted singly.
    pub fn waiting_count(&self) -> usize
        ensures { Meets [] (query waiting_count) self.now self.now (done result) }
    {
        outbound_len_of(self.core.rings.decode())
    }

    // What the command and metadata of a chunk may take of the message limit.
    pub fn headroom(&self) -> usize
        ensures { Meets [] (query headroom) self.now self.now (done result) }
    {
        self.core.settings.limits.metadata_reservation
    }

    pub fn statistics(&self) -> ProducerStats
        ensures { Meets [] (query statistics) self.now self.now (done result) }
    {
        stats_of(self.core.counters, self.core.rings.decode().pending)
    }

    // The same for a state by value.

    pub fn next_send_deadline(self) -> Option<u64>
        ensures { Meets [] (query send_deadline) self self (done result) }
    {
        self.send_deadline()
    }

    pub fn next_batch_deadline(self) -> Option<u64>
        ensures { Meets [] (query batch_deadline) self self (done result) }
    {
        self.batch_deadline()
    }

    pub fn batch_deadline_elapsed(self, now: u64) -> bool
        ensures { Meets [] (query (batch_elapsed now)) self self (done result) }
    {
        self.is_batch_due(now)
    }

    pub fn can_add_to_batch(self, payload_size: usize, num_messages: i32) -> bool
        ensures { Meets [] (query (can_add payload_size num_messages)) self self (done result) }
    {
        self.may_add(payload_size, num_messages)
    }

    pub fn outbound_len(self) -> usize
        ensures { Meets [] (query waiting_count) self self (done result) }
    {
        self.waiting_count()
    }

    pub fn metadata_reservation(self) -> usize
        ensures { Meets [] (query headroom) self self (done result) }
    {
        self.headroom()
    }

    pub fn stats(self) -> ProducerStats
        ensures { Meets [] (query statistics) self self (done result) }
    {
        self.statistics()
    }
}
