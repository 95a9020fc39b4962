// Protocol Buffers fields: a varint, or bytes after their length. A tag is a u8, so that no key overflows.
ghost use Rattle.std.specs.Prelude.{◌≡◌, ℕ, List, true, length, replicate, refl, None, Some};
ghost use Rattle.std.specs.Option.{ForSome};
ghost use Rattle.types.specs.Values.{part_of, part_in};
ghost use Rattle.wire.specs.Proto.{varint, key, varint_field, bytes_field, bool_field, optional};
ghost use Rattle.wire.specs.Length.{stopped};
ghost use Rattle.wire.specs.Buffer.{Room, Puts};
ghost use Rattle.wire.specs.Fields.{part_field_length};

use crate::varint::{put_varint, varint_len};
use types::message::Part;

// Wire types.
const VARINT: u8 = 0;

const LENGTH_DELIMITED: u8 = 2;

// The number whose varint is a field's key.
#[tactic(auto, unfolding(crate::specs::Proto::key))]
fn key(tag: u8, wire_type: u8) -> u64
    ensures { varint result ≡ key tag wire_type }
{
    tag as u64 * 8 + wire_type as u64
}

// What a field can hold. A part's bytes are in the store that the caller lends.
pub trait Field {
    // Its bytes lie in a store of that length.
    ghost stored: { ℕ → Self → Type 0 };

    // The field over a store, under a tag.
    ghost bytes: { List ℕ → ℕ → Self → List ℕ };

    // The same with zeros for what is in the store, known without it.
    ghost blank: { ℕ → Self → List ℕ };

    fn put_field(self, out: &mut [u8], tag: u8, store: &[u8]) -> usize
        requires stored { stored (length store.now) self }
        requires room { Room (bytes store.now tag self) out.old }
        ensures { Puts (bytes store.now tag self) out.old out.new result };

    // How many bytes `put_field` writes.
    fn field_len(self, tag: u8) -> usize
        ensures { result ≡ stopped (length (blank tag self)) };

    ghost as_long: { (store : List ℕ) (tag : ℕ) (x : Self) → stored (length store) x → length (bytes store tag x) ≡ length (blank tag x) };
}

#[tactic(auto, using(crate::proofs::Writes::then), unfolding(crate::specs::Proto::varint_field))]
impl Field for u64 {
    ghost stored = { λ n v. Unit {0} };

    ghost bytes = { λ store tag v. varint_field tag v };

    ghost blank = { λ tag v. varint_field tag v };

    ghost as_long = { λ store tag v h. refl };

    fn put_field(self, out: &mut [u8], tag: u8, _store: &[u8]) -> usize {
        let n = put_varint(out, key(tag, VARINT));
        n + put_varint(&mut out[n..], self)
    }

    fn field_len(self, tag: u8) -> usize {
        varint_len(key(tag, VARINT)) + varint_len(self)
    }
}

// A present false is written too.
impl Field for bool {
    ghost stored = { λ n b. Unit {0} };

    ghost bytes = { λ store tag b. bool_field tag b };

    ghost blank = { λ tag b. bool_field tag b };

    ghost as_long = { λ store tag b h. refl };

    fn put_field(self, out: &mut [u8], tag: u8, store: &[u8]) -> usize {
        (self as u64).put_field(out, tag, store)
    }

    fn field_len(self, tag: u8) -> usize {
        (self as u64).field_len(tag)
    }
}

#[tactic(auto, unfolding(crate::specs::Proto::bytes_field))]
impl Field for Part {
    ghost stored = { λ n p. part_in n p ≡ true };

    ghost bytes = { λ store tag p. bytes_field tag (part_of store p) };

    ghost blank = { λ tag p. bytes_field tag (replicate p.len 0) };

    ghost as_long = { part_field_length };

    fn put_field(self, out: &mut [u8], tag: u8, store: &[u8]) -> usize {
        let Part { start, len } = self;
        let mut n = put_varint(out, key(tag, LENGTH_DELIMITED));
        n += put_varint(&mut out[n..], len as u64);
        out[n..n + len].copy_from_slice(&store[start..start + len]);
        n + len
    }

    fn field_len(self, tag: u8) -> usize {
        let head = varint_len(key(tag, LENGTH_DELIMITED)) + varint_len(self.len as u64);
        head.saturating_add(self.len)
    }
}

// An absent field is left out.
impl<T: Field> Field for Option<T> {
    ghost stored = { λ n x. ForSome x (T.stored n) };

    ghost bytes = { λ store tag x. optional (T.bytes store tag) x };

    ghost blank = { λ tag x. optional (T.blank tag) x };

    ghost as_long = { λ store tag. elim [ None ↦ λ h. refl | Some v ↦ λ h. T.as_long store tag v (h v refl) ] };

    fn put_field(self, out: &mut [u8], tag: u8, store: &[u8]) -> usize {
        match self {
            None => 0,
            Some(v) => v.put_field(out, tag, store),
        }
    }

    fn field_len(self, tag: u8) -> usize {
        match self {
            None => 0,
            Some(v) => v.field_len(tag),
        }
    }
}
