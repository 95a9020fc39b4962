// What a message may be: its parts in the store (refusal 2) and its lengths (refusal 3).
ghost use Rattle.std.specs.Prelude.{◌≡◌};
ghost use Rattle.types.specs.Values.{part_in, maybe_in, up_to};
ghost use Rattle.queue.specs.Send.{message_in, within_bounds};

use types::frame::ProducerName;
use types::memory_limit::MemoryReservation;
use types::message::{OutgoingMessage, Part};

pub fn part_in(n: usize, p: Part) -> bool
    ensures { result ≡ part_in n p }
{
    p.len <= n && p.start <= n - p.len
}

// An absent part is not tested.
pub fn maybe_part_in(n: usize, p: Option<Part>) -> bool
    ensures { result ≡ maybe_in n p }
{
    p.is_none_or(|q| part_in(n, q))
}

// 2: every part of the message lies in a store of n bytes.
pub fn message_in(n: usize, m: OutgoingMessage) -> bool
    ensures { result ≡ message_in n m m.payload }
{
    part_in(n, m.payload)
        && maybe_part_in(n, m.partition_key)
        && maybe_part_in(n, m.ordering_key)
        && maybe_part_in(n, m.schema_version)
        && part_in(n, m.producer_name)
}

pub fn up_to(most: usize, p: Option<Part>) -> bool
    ensures { result ≡ up_to most p }
{
    p.is_none_or(|q| q.len <= most)
}

// 3: no length over its bound, the reservation's included.
pub fn within_bounds(m: OutgoingMessage, reservation: MemoryReservation) -> bool
    ensures { result ≡ within_bounds m reservation.bytes }
{
    m.payload.len <= OutgoingMessage::MAX_PAYLOAD
        && up_to(OutgoingMessage::MAX_KEY, m.partition_key)
        && up_to(OutgoingMessage::MAX_KEY, m.ordering_key)
        && up_to(OutgoingMessage::MAX_KEY, m.schema_version)
        && m.producer_name.len <= ProducerName::MAX_LEN
        && reservation.within_bound()
}
