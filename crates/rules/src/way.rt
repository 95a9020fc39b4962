// What a way pushes, and which refusals it meets (document 01, 'sends').
ghost use Rattle.std.specs.Prelude.{◌≡◌, ◌&&◌, not, min, leb};
ghost use Rattle.queue.specs.Sizes.{held_size, pending_size};
ghost use Rattle.queue.specs.Send.{pushes, joins, is_too_large};

use crate::rings::Rings;
use types::way::Way;

// The frames that a way pushes.
pub fn frames_pushed(w: Way) -> usize
    ensures { result ≡ pushes w }
{
    match w {
        Way::TooLarge { before } => usize::from(before),
        Way::Join { before, after } => usize::from(before) + usize::from(after),
        Way::Single { before } => usize::from(before) + 1,
        Way::Chunked {
            before,
            total_chunks,
            ..
        } => usize::from(before) + total_chunks as usize,
    }
}

// 5: the message would join and 512 batched messages are held.
pub fn held_full(w: Way, held_len: usize) -> bool
    ensures { result ≡ joins w && leb held_size (min held_len held_size) }
{
    matches!(w, Way::Join { .. }) && Rings::HELD <= held_len
}

// 7: 256 entries pending. What 6 refuses comes before.
pub fn pending_full(w: Way, pending_len: usize) -> bool
    ensures { result ≡ not (is_too_large w) && leb pending_size (min pending_len pending_size) }
{
    !matches!(w, Way::TooLarge { .. }) && Rings::PENDING <= pending_len
}
