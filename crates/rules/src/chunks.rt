// How a message over the limit is cut (document 01, 'sends'; document 02, K6).
ghost use Rattle.std.specs.Prelude.{◌≡◌, ◌*◌, min};
ghost use Rattle.queue.specs.Send.{chunk_size_of, total_chunks};
ghost use Rattle.rules.specs.Chunks.{cut_of};

use types::settings::Limits;

// Chunks of this size, so many.
#[derive(Clone, Copy)]
pub struct Cut {
    pub max_chunk_size: u32,
    pub total_chunks: u32,
}

impl Cut {
    // The most chunks that a command can bear.
    pub const MAX_CHUNKS: usize = 0x7fff_ffff;

    // The payload bytes of all chunks: the whole payload, unless the size is 0 or the count was stopped.
    pub fn bytes(self, payload_len: usize) -> usize
        ensures { result ≡ min payload_len (self.total_chunks * self.max_chunk_size) }
    {
        payload_len.min(self.total_chunks as usize * self.max_chunk_size as usize)
    }
}

// The payload size of a chunk: the limit less the reservation, where the limit is over four times that. No limit is over a product
// that a usize cannot hold.
pub fn chunk_size(l: Limits) -> usize
    ensures { result ≡ chunk_size_of l }
{
    if l.metadata_reservation.saturating_mul(4) < l.max_message_size {
        l.max_message_size - l.metadata_reservation
    } else {
        l.max_message_size
    }
}

// The payload over the size, rounded up, from 1 to `MAX_CHUNKS`.
#[tactic(auto, using(crate::proofs::Rounding::rounded_up))]
pub fn compute_total_chunks(payload_len: usize, max_chunk_size: usize) -> u32
    ensures { result ≡ total_chunks payload_len max_chunk_size }
{
    if max_chunk_size == 0 {
        1
    } else {
        payload_len
            .div_ceil(max_chunk_size)
            .clamp(1, Cut::MAX_CHUNKS) as u32
    }
}

// How a payload over the limit is cut. A size that 32 bits cannot hold is none that the bound of 3 allows.
pub fn cut_of(payload_len: usize, l: Limits) -> Cut
    ensures { result ≡ cut_of payload_len l }
{
    let size = chunk_size(l).min(u32::MAX as usize);
    Cut {
        max_chunk_size: size as u32,
        total_chunks: compute_total_chunks(payload_len, size),
    }
}
