// One item of a batch frame's payload (document 01, 'producer.rs: batch').
ghost use Rattle.std.specs.Prelude.{◌≡◌, length};
ghost use Rattle.wire.specs.Batch.{item, item_of, InStore};
ghost use Rattle.wire.specs.Length.{item_length, stopped};
ghost use Rattle.wire.specs.Buffer.{Room, Puts};

use crate::be32::put_be32;
use crate::single::{put_single, single_len};
use types::message::{Part, SingleMessage};

// How many bytes `put_item` writes.
#[tactic(auto, unfolding(crate::specs::Length::item_length))]
pub fn item_len(m: SingleMessage) -> usize
    ensures { result ≡ stopped (item_length m) }
{
    single_len(m)
        .saturating_add(4)
        .saturating_add(m.payload.len)
}

// Writes the item to the start of `out` (document 02, K4): the four bytes say what the fields come to, and what is behind them is
// lent to the writer of the single metadata.
#[tactic(auto, using(crate::proofs::Lengths::item_size, crate::proofs::Lengths::single_length_lem, crate::specs::Fields::part_length))]
pub fn put_item(out: &mut [u8], store: &[u8], m: SingleMessage) -> usize
    requires { InStore (length store.now) m × Room (item (item_of store.now m)) out.old }
    ensures { Puts (item (item_of store.now m)) out.old out.new result }
{
    let Part { start, len } = m.payload;
    let n = single_len(m);
    put_be32(out, n);
    put_single(&mut out[4..], store, m);
    let head = 4 + n;
    out[head..head + len].copy_from_slice(&store[start..start + len]);
    head + len
}
