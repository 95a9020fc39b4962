// The bytes of a script (docs/SCRIPT.md, 'Numbers and values'). What does not lie within the script reads as zero.
ghost use Rattle.std.specs.Prelude.{◌≡◌};
ghost use Rattle.laws.specs.Numbers.{add_sat};

use types::message::Part;
use types::signed::signed_of;
use types::txn::TxnId;
use types::types::{MessageId, MessageIdData, ProducerHandle, SequenceId};

#[derive(Clone, Copy)]
pub struct Place<'a> {
    pub script: &'a [u8],
    pub at: usize,
}

// What scripts are made of.
pub trait Get {
    fn get(place: Place) -> Self;
}

impl<'a> Place<'a> {
    pub fn start(script: &'a [u8]) -> Place<'a>
        ensures script { result.script.now ≡ script.entry.now }
        ensures at { result.at ≡ 0 }
    {
        Place { script, at: 0 }
    }

    // A place further on, as far as places go.
    pub fn behind(self, n: usize) -> Place<'a>
        ensures script { result.script.now ≡ self.entry.script.now }
        ensures at { result.at ≡ add_sat self.entry.at n }
    {
        Place {
            at: self.at.saturating_add(n),
            ..self
        }
    }

    // The script from here on.
    pub fn rest(self) -> &'a [u8] {
        self.script.get(self.at..).unwrap_or(&[])
    }

    // The next bytes; none where they do not lie within.
    pub fn bytes(self, n: usize) -> &'a [u8] {
        self.rest().get(..n).unwrap_or(&[])
    }

    pub fn get<T: Get>(self) -> T {
        T::get(self)
    }
}

impl<const N: usize> Get for [u8; N] {
    fn get(place: Place) -> [u8; N] {
        place.rest().first_chunk().copied().unwrap_or([0; N])
    }
}

impl Get for u8 {
    fn get(place: Place) -> u8 {
        let [byte] = place.get::<[u8; 1]>();
        byte
    }
}

impl Get for bool {
    fn get(place: Place) -> bool {
        place.get::<u8>() != 0
    }
}

impl Get for u32 {
    fn get(place: Place) -> u32 {
        u32::from_le_bytes(place.get())
    }
}

impl Get for u64 {
    fn get(place: Place) -> u64 {
        u64::from_le_bytes(place.get())
    }
}

impl Get for usize {
    fn get(place: Place) -> usize {
        place.get::<u64>() as usize
    }
}

impl Get for i32 {
    fn get(place: Place) -> i32 {
        place.get::<u32>().cast_signed()
    }
}

impl Get for i64 {
    fn get(place: Place) -> i64 {
        signed_of(place.get())
    }
}

impl<T: Get> Get for Option<T> {
    fn get(place: Place) -> Option<T> {
        place.get::<bool>().then(|| place.behind(1).get())
    }
}

impl Get for Part {
    fn get(place: Place) -> Part {
        Part {
            start: place.get(),
            len: place.behind(8).get(),
        }
    }
}

impl Get for TxnId {
    fn get(place: Place) -> TxnId {
        TxnId {
            most_sig_bits: place.get(),
            least_sig_bits: place.behind(8).get(),
        }
    }
}

impl Get for ProducerHandle {
    fn get(place: Place) -> ProducerHandle {
        ProducerHandle(place.get())
    }
}

impl Get for SequenceId {
    fn get(place: Place) -> SequenceId {
        SequenceId(place.get())
    }
}

impl Get for MessageId {
    fn get(place: Place) -> MessageId {
        MessageId {
            ledger_id: place.get(),
            entry_id: place.behind(8).get(),
            partition: place.behind(16).get(),
            batch_index: place.behind(20).get(),
            batch_size: place.behind(24).get(),
        }
    }
}

impl Get for MessageIdData {
    fn get(place: Place) -> MessageIdData {
        MessageIdData {
            ledger_id: place.get(),
            entry_id: place.behind(8).get(),
            partition: place.behind(16).get(),
            batch_index: place.behind(21).get(),
            batch_size: place.behind(26).get(),
        }
    }
}

// The first bytes of the store, as many as are lent.
pub fn lent_of(store: &[u8], asked: u64) -> &[u8] {
    store.get(..asked as usize).unwrap_or(store)
}
