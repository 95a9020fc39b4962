// The ids of the pending entries and their marks: what is searched. An id is in the Rust's `pending_index` when an entry that
// bears it is marked (not 0).
ghost use Rattle.std.specs.Prelude.{◌≡◌, ◌&&◌, ◌||◌, not, eqb, length};
ghost use Rattle.rules.specs.declared.rings.TheConstants.Rings.{PENDING};
ghost use Rattle.upkeep.specs.Pending.{searched, wanted, place_of, located, bearing, cleared_all};

use rules::rings::{Ring, Rings};
use types::types::SequenceId;

fn bears(entry: SequenceId, mark: u8, id: SequenceId, any: bool) -> bool
    ensures { result ≡ (eqb entry.0 id.0 && (any || not (eqb mark 0))) }
{
    entry == id && (any || mark != 0)
}

// The pending ring as it is searched.
#[derive(Clone, Copy)]
pub struct Index<'a> {
    pub ids: &'a [SequenceId; Rings::PENDING],
    pub marks: &'a [u8; Rings::PENDING],
    pub ring: Ring<{ Rings::PENDING }>,
    ghost full: { (length ids.now ≡ PENDING) × (length marks.now ≡ PENDING) },
}

impl<'a> Index<'a> {
    // The search stops at the first entry that bears the id, or, unless `any` will do, at the first that does and is marked.
    fn find(self, id: SequenceId, any: bool) -> Option<usize>
        ensures { result ≡ place_of (wanted id.0 any) (searched self.entry.ids.now self.entry.marks.now self.entry.ring) }
    {
        for i in 0..self.ring.count() {
            let at = self.ring.slot(i);
            if bears(self.ids[at], self.marks[at], id, any) {
                return Some(i);
            }
        }
        None
    }

    // The place of the first entry that bears the id, if the id is answerable.
    pub fn locate(self, id: SequenceId) -> Option<usize>
        ensures { result ≡ located id.0 (searched self.entry.ids.now self.entry.marks.now self.entry.ring) }
    {
        self.find(id, false)?;
        self.find(id, true)
    }
}

// How many slots bear the id, in use or not.
pub fn bearing(ids: &[SequenceId; Rings::PENDING], id: SequenceId) -> usize
    ensures { result ≡ bearing id.0 ids.now }
{
    let mut count = 0;
    for entry in ids {
        if *entry == id {
            count += 1;
        }
    }
    count
}

// The id leaves the index: no entry keeps it.
pub fn unmark(marks: &mut [u8; Rings::PENDING], ids: &[SequenceId; Rings::PENDING], id: SequenceId)
    ensures { marks.new ≡ cleared_all id.0 ids.now marks.old }
{
    for (i, entry) in ids.iter().enumerate() {
        if *entry == id {
            marks[i] = 0;
        }
    }
}
