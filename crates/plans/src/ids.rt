// Sequence ids and deadlines (document 01, 'ids and clocks').
ghost use Rattle.std.specs.Prelude.{◌≡◌};
ghost use Rattle.plans.specs.Ids.{with_initial_id, send_deadline_of, batch_deadline_of};

use crate::state::Core;
use types::types::SequenceId;
use upkeep::deadline::{after, unless_none};
use upkeep::stats::initial_ids;

impl Core {
    // Of the front entry, which was sent at `enqueued_at`.
    pub fn next_send_deadline(self, enqueued_at: u64) -> Option<u64>
        ensures { result ≡ send_deadline_of self enqueued_at }
    {
        let deadline = after(self.settings.delays.send_timeout, enqueued_at);
        unless_none(self.rings.pending.len, deadline)
    }

    pub fn next_batch_deadline(self) -> Option<u64>
        ensures { result ≡ batch_deadline_of self }
    {
        let delay = self.settings.delays.batching_max_publish_delay;
        let deadline = after(delay, self.batch.first_added_at);
        unless_none(self.batch.len, deadline)
    }

    pub fn set_initial_sequence_id(self, next: SequenceId) -> Core
        ensures { result ≡ with_initial_id next.0 self }
    {
        Core {
            ids: initial_ids(self.ids, next),
            ..self
        }
    }
}
