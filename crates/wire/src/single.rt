// The single metadata of a message of a batch (document 01, 'producer.rs: batch').
ghost use Rattle.std.specs.Prelude.{◌≡◌, length};
ghost use Rattle.wire.specs.Single.{single};
ghost use Rattle.wire.specs.Batch.{metadata_of, InStore};
ghost use Rattle.wire.specs.Length.{single_length, stopped};
ghost use Rattle.wire.specs.Buffer.{Room, Puts};

use crate::field::Field;
use types::message::SingleMessage;

// How many bytes `put_single` writes: a flush has no store at hand.
#[tactic(auto, using(crate::proofs::Lengths::single_steps))]
pub fn single_len(m: SingleMessage) -> usize
    ensures { result ≡ stopped (single_length m) }
{
    m.partition_key
        .field_len(2)
        .saturating_add((m.payload.len as u64).field_len(3))
        .saturating_add(m.event_time.field_len(5))
        .saturating_add(m.ordering_key.field_len(7))
        .saturating_add(m.null_value.field_len(9))
        .saturating_add(m.null_partition_key.field_len(10))
}

// Writes the single metadata to the start of `out`.
#[tactic(auto, using(crate::proofs::Lengths::single_steps))]
pub fn put_single(out: &mut [u8], store: &[u8], m: SingleMessage) -> usize
    requires { InStore (length store.now) m × Room (single (metadata_of store.now m)) out.old }
    ensures { Puts (single (metadata_of store.now m)) out.old out.new result }
{
    let mut n = m.partition_key.put_field(out, 2, store);
    n += (m.payload.len as u64).put_field(&mut out[n..], 3, store);
    n += m.event_time.put_field(&mut out[n..], 5, store);
    n += m.ordering_key.put_field(&mut out[n..], 7, store);
    n += m.null_value.put_field(&mut out[n..], 9, store);
    n + m.null_partition_key.put_field(&mut out[n..], 10, store)
}
