// The scalars once entries have been handed out.
ghost use Rattle.std.specs.Prelude.{◌≡◌};
ghost use Rattle.tables.specs.Scalars.{core_without_front, core_emptied, core_after, core_snapshot};

use plans::state::Core;
use rules::rings::Rings;
use types::batch::BatchContainer;

// The first n entries leave, or all where there are fewer.
pub fn without_front(c: Core, n: usize) -> Core
    ensures { result ≡ core_without_front n c }
{
    let rings = Rings {
        pending: c.rings.pending.without_front(n),
        ..c.rings
    };
    Core { rings, ..c }
}

// No entry, no frame, no held message, and an empty batch.
pub fn emptied(c: Core) -> Core
    ensures { result ≡ core_emptied c }
{
    let mut rings = c.rings;
    rings.outbound.len = 0;
    rings.waiting = 0;
    rings.held.len = 0;
    rings.pending.len = 0;
    Core {
        batch: BatchContainer::empty(),
        rings,
        ..c
    }
}

// After a drain of n entries: those that were due at a time, or all.
pub fn after_drain(c: Core, due: Option<u64>, n: usize) -> Core
    ensures { result ≡ core_after due n c }
{
    match due {
        None => emptied(c),
        Some(_) => without_front(c, n),
    }
}

// The scalars of a drain of all, with n entries dropped; the broker has to attach the producer anew.
pub fn after_snapshot(c: Core, n: usize) -> Core
    ensures { result ≡ core_snapshot n c }
{
    let mut left = emptied(c);
    left.counters.total_send_failed = c.counters.total_send_failed.saturating_add(n as u64);
    left.settings.switches.broker_ready = false;
    left
}
