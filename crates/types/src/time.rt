// Sums of times that cannot overflow.
ghost use Rattle.std.specs.Prelude.{◌≡◌};
ghost use Rattle.types.specs.Time.{deadline_with_clamp};

// A point in time, in milliseconds.
#[derive(Clone, Copy, PartialEq, Eq)]
pub struct Deadline(pub u64);

impl Deadline {
    // How far off a deadline is whose sum passes 2^64 - 1: an hour.
    pub const OVERFLOW_FALLBACK: u64 = 3_600_000;
}

// `base` plus `delta`, or the fallback after `base` where that sum passes 2^64 - 1; 2^64 - 1 where even that one does.
pub fn deadline_with_clamp(base: u64, delta: u64) -> u64
    ensures { result ≡ deadline_with_clamp base delta }
{
    match base.checked_add(delta) {
        Some(deadline) => deadline,
        None => base.saturating_add(Deadline::OVERFLOW_FALLBACK),
    }
}
