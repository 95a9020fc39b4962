// What a frame bears lies in the store (2).
ghost use Rattle.std.specs.Prelude.{◌≡◌, ◌+◌, leb};
ghost use Rattle.queue.specs.Frame.{single_in};
ghost use Rattle.frames.specs.Span.{name_in, borne};

use rules::bounds::{maybe_part_in, part_in};
use types::message::{OutgoingMessage, Part, SingleMessage};

// So many bytes of a payload, behind those that went before.
pub fn piece_inside(start: usize, skip: usize, len: usize, n: usize) -> bool
    ensures { result ≡ leb (start + skip + len) n }
{
    skip <= n && part_in(n - skip, Part { start, len })
}

// An empty name is not borne.
fn name_inside(name: Part, n: usize) -> bool
    ensures { result ≡ name_in n name }
{
    name.len == 0 || part_in(n, name)
}

// Of what a message bears, all but its payload.
pub fn message_inside(m: OutgoingMessage, n: usize) -> bool
    ensures { result ≡ borne n m }
{
    maybe_part_in(n, m.partition_key)
        && maybe_part_in(n, m.ordering_key)
        && maybe_part_in(n, m.schema_version)
        && name_inside(m.producer_name, n)
}

pub fn single_inside(m: SingleMessage, n: usize) -> bool
    ensures { result ≡ single_in n m }
{
    part_in(n, m.payload) && maybe_part_in(n, m.partition_key) && maybe_part_in(n, m.ordering_key)
}
