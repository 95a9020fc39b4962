// Deadlines that may be absent (document 01, 'ids and clocks').
ghost use Rattle.std.specs.Prelude.{◌≡◌};
ghost use Rattle.upkeep.specs.Deadline.{maybe_after, has_elapsed, unless_none};

use types::time::deadline_with_clamp;

// A time plus a delay, none without a delay.
pub fn after(delay: Option<u64>, time: u64) -> Option<u64>
    ensures { result ≡ maybe_after delay time }
{
    delay.map(|d| deadline_with_clamp(time, d))
}

// Whether a deadline that is there has passed.
pub fn elapsed(now: u64, deadline: Option<u64>) -> bool
    ensures { result ≡ has_elapsed now deadline }
{
    deadline.is_some_and(|d| d <= now)
}

// A deadline, none where nothing waits for it.
pub fn unless_none(waiting: usize, deadline: Option<u64>) -> Option<u64>
    ensures { result ≡ unless_none waiting deadline }
{
    if waiting == 0 { None } else { deadline }
}
