// The bytes of answers (docs/SCRIPT.md, 'Numbers and values'). What has no room is not written.
#![tactic(auto, using(crate::proofs::Writings::both))]

ghost use Rattle.std.specs.Prelude.{◌≡◌};
ghost use Rattle.script.specs.Output.{Writes};

use types::message::Part;
use types::signed::bits_of;
use types::txn::TxnId;
use types::types::{MessageId, MessageIdData};

// An output, and the place up to which it is written.
#[derive(Drop)]
pub struct Output<'a> {
    pub bytes: &'a mut [u8],
    pub at: usize,
}

// What answers are made of.
pub trait Put {
    fn put(self, out: &mut Output)
        ensures { Writes out.old out.new };
}

impl<'a> Output<'a> {
    pub fn new(bytes: &'a mut [u8]) -> Output<'a>
        ensures same_reference { result.bytes.ghost_name ≡ bytes.entry.ghost_name }
        ensures bytes { result.bytes.now ≡ bytes.entry.now }
        ensures at { result.at ≡ 0 }
    {
        Output { bytes, at: 0 }
    }

    // All of some bytes, without their length.
    pub fn put_raw(&mut self, bytes: &[u8])
        ensures { Writes self.old self.new }
    {
        if self.at <= self.bytes.len() && bytes.len() <= self.bytes.len() - self.at {
            let end = self.at + bytes.len();
            self.bytes[self.at..end].copy_from_slice(bytes);
            self.at = end;
        }
    }

    pub fn put<T: Put>(&mut self, v: T)
        ensures { Writes self.old self.new }
    {
        v.put(self);
    }
}

impl Put for () {
    fn put(self, _out: &mut Output) {}
}

impl Put for u8 {
    fn put(self, out: &mut Output) {
        out.put_raw(&[self]);
    }
}

impl Put for bool {
    fn put(self, out: &mut Output) {
        out.put(u8::from(self));
    }
}

impl Put for u32 {
    fn put(self, out: &mut Output) {
        out.put_raw(&self.to_le_bytes());
    }
}

impl Put for u64 {
    fn put(self, out: &mut Output) {
        out.put_raw(&self.to_le_bytes());
    }
}

impl Put for usize {
    fn put(self, out: &mut Output) {
        out.put(self as u64);
    }
}

impl Put for i32 {
    fn put(self, out: &mut Output) {
        out.put(self.cast_unsigned());
    }
}

impl Put for i64 {
    fn put(self, out: &mut Output) {
        out.put(bits_of(self));
    }
}

impl<T: Put> Put for Option<T> {
    fn put(self, out: &mut Output) {
        match self {
            None => out.put(false),
            Some(v) => {
                out.put(true);
                out.put(v);
            }
        }
    }
}

impl<A: Put, B: Put> Put for (A, B) {
    fn put(self, out: &mut Output) {
        let (a, b) = self;
        out.put(a);
        out.put(b);
    }
}

impl<A: Put, B: Put, C: Put> Put for (A, B, C) {
    fn put(self, out: &mut Output) {
        let (a, b, c) = self;
        out.put(a);
        out.put(b);
        out.put(c);
    }
}

impl<A: Put, B: Put, C: Put, D: Put> Put for (A, B, C, D) {
    fn put(self, out: &mut Output) {
        let (a, b, c, d) = self;
        out.put(a);
        out.put(b);
        out.put(c);
        out.put(d);
    }
}

// The low half of a number: what the port keeps in 64 bits and the protocol in 32.
pub fn low_half(n: u64) -> u32 {
    (n % 0x1_0000_0000) as u32
}

// Bytes with their length.
impl Put for &[u8] {
    fn put(self, out: &mut Output) {
        out.put(low_half(self.len() as u64));
        out.put_raw(self);
    }
}

// A part of the store, as its bytes.
#[derive(Clone, Copy)]
pub struct Stored<'a> {
    pub store: &'a [u8],
    pub part: Part,
}

// Nothing of one that lies outside.
impl Put for Stored<'_> {
    fn put(self, out: &mut Output) {
        let Part { start, len } = self.part;
        if let Some(bytes) = self.store.get(start..start.saturating_add(len)) {
            out.put(bytes);
        }
    }
}

impl Put for Part {
    fn put(self, out: &mut Output) {
        out.put(self.start);
        out.put(self.len);
    }
}

impl Put for TxnId {
    fn put(self, out: &mut Output) {
        out.put(self.most_sig_bits);
        out.put(self.least_sig_bits);
    }
}

impl Put for MessageId {
    fn put(self, out: &mut Output) {
        out.put((self.ledger_id, self.entry_id));
        out.put((self.partition, self.batch_index, self.batch_size));
    }
}

impl Put for MessageIdData {
    fn put(self, out: &mut Output) {
        out.put((self.ledger_id, self.entry_id));
        out.put((self.partition, self.batch_index, self.batch_size));
    }
}

// The two halves of a transaction as fields of their own, the lower first.
pub fn put_txn_halves(out: &mut Output, v: Option<TxnId>)
    ensures { Writes out.old out.new }
{
    out.put(v.map(|t| t.least_sig_bits));
    out.put(v.map(|t| t.most_sig_bits));
}
