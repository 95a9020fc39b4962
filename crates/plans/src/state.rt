// The scalars of a producer.
ghost use Rattle.std.specs.Prelude.{◌≡◌};
ghost use Rattle.plans.specs.State.{new_core};

use rules::rings::{Ring, Rings};
use types::batch::BatchContainer;
use types::settings::ProducerSettings;
use types::stats::{Counters, SequenceIds};
use types::types::ProducerHandle;
use upkeep::settings::new_settings;
use upkeep::stats::new_ids;

#[derive(Clone, Copy)]
pub struct Core {
    pub handle: ProducerHandle,
    pub settings: ProducerSettings,
    pub ids: SequenceIds,
    pub counters: Counters,
    pub batch: BatchContainer,
    pub rings: Rings,
}

impl Core {
    // Of a new producer.
    pub fn new(handle: ProducerHandle) -> Core
        ensures { result ≡ new_core handle }
    {
        Core {
            handle,
            settings: new_settings(),
            ids: new_ids(),
            counters: Counters {
                total_msgs_sent: 0,
                total_bytes_sent: 0,
                total_send_failed: 0,
                total_acks_received: 0,
            },
            batch: BatchContainer::empty(),
            rings: Rings {
                outbound: Ring { head: 0, len: 0 },
                waiting: 0,
                held: Ring { head: 0, len: 0 },
                pending: Ring { head: 0, len: 0 },
            },
        }
    }
}
