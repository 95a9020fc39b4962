// Where the rings begin, and how long they are.
ghost use Rattle.std.specs.Prelude.{◌≡◌};
ghost use Rattle.rows.specs.Rings.{decode_ring, decode_rings};

use rules::rings::{Ring, Rings};

#[derive(Clone, Copy)]
#[repr(C)]
pub struct RingRow {
    pub head: usize,
    pub len: usize,
}

#[derive(Clone, Copy)]
#[repr(C)]
pub struct RingsRow {
    pub outbound: RingRow,
    pub waiting: usize,
    pub held: RingRow,
    pub pending: RingRow,
}

impl RingRow {
    pub fn decode<const N: usize>(self) -> Ring<N>
        ensures { result ≡ decode_ring N self }
    {
        Ring {
            head: self.head,
            len: self.len,
        }
    }

    pub fn encode<const N: usize>(r: Ring<N>) -> RingRow
        ensures { decode_ring N result ≡ r.entry }
    {
        RingRow {
            head: r.head,
            len: r.len,
        }
    }
}

impl RingsRow {
    pub fn decode(self) -> Rings
        ensures { result ≡ decode_rings self }
    {
        Rings {
            outbound: self.outbound.decode(),
            waiting: self.waiting,
            held: self.held.decode(),
            pending: self.pending.decode(),
        }
    }

    pub fn encode(r: Rings) -> RingsRow
        ensures { decode_rings result ≡ r }
    {
        RingsRow {
            outbound: RingRow::encode(r.outbound),
            waiting: r.waiting,
            held: RingRow::encode(r.held),
            pending: RingRow::encode(r.pending),
        }
    }
}
