// What a send does with its message (document 01, 'sends').
ghost use Rattle.std.specs.Prelude.{◌≡◌, ◌≤◌};
ghost use Rattle.queue.specs.Send.{large, flushes_before, way_into, way_of};
ghost use Rattle.types.specs.Bounds.{longest_payload};
ghost use Rattle.plans.specs.Way.{left_core};

use crate::state::Core;
use rules::batch::same_txn;
use rules::chunks::cut_of;
use types::batch::BatchContainer;
use types::message::OutgoingMessage;
use types::way::Way;

impl Core {
    // Payload equal to the limit is not too large.
    fn is_large(self, m: OutgoingMessage) -> bool
        ensures { result ≡ large self.settings m }
    {
        self.settings.limits.max_message_size < m.payload.len
    }

    // A waiting batch of another transaction is flushed (batching on), and one that the message cannot join.
    fn flushes_before(self, m: OutgoingMessage) -> bool
        ensures { result ≡ flushes_before self.settings m self.batch }
    {
        let waits = self.batch.len != 0;
        let other = waits
            & self.settings.switches.batching_enabled
            & !same_txn(self.batch.txn_id, m.txn_id);
        other | (waits & !self.may_join(m))
    }

    // With the batch that is left once it was flushed or not.
    fn left(self, flush: bool) -> Core
        ensures { result ≡ left_core flush self }
    {
        if flush {
            Core {
                batch: BatchContainer::empty(),
                ..self
            }
        } else {
            self
        }
    }

    // Above the limit: refused with chunking off; with chunking on it joins if it can, else it is chunked.
    fn way_into(self, m: OutgoingMessage, before: bool) -> Way
        requires { m.payload.len ≤ longest_payload }
        ensures { result ≡ way_into self.settings m before self.batch }
    {
        let large = self.is_large(m);
        if large & !self.settings.switches.chunking_enabled {
            Way::TooLarge { before }
        } else if self.may_join(m) {
            let count = self.batch.len.saturating_add(1);
            let size = self.batch.current_size_bytes.saturating_add(m.payload.len);
            Way::Join {
                before,
                after: self.is_full(count, size),
            }
        } else if large {
            let cut = cut_of(m.payload.len, self.settings.limits);
            Way::Chunked {
                before,
                max_chunk_size: cut.max_chunk_size,
                total_chunks: cut.total_chunks,
            }
        } else {
            Way::Single { before }
        }
    }

    // A message over the bound of 3 has none.
    pub(crate) fn way(self, m: OutgoingMessage) -> Way
        requires { m.payload.len ≤ longest_payload }
        ensures { result ≡ way_of self.settings m self.batch }
    {
        let before = self.flushes_before(m);
        self.left(before).way_into(m, before)
    }
}
