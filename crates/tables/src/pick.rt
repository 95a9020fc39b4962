// Entries that are chosen from others.
ghost use Rattle.std.specs.Prelude.{◌≡◌, Bool, map, take};
ghost use Rattle.types.specs.declared.entry.OpSend.{OpSend};
ghost use Rattle.laws.specs.Lists.{keeping};
ghost use Rattle.rows.specs.Entry.{decode_entry};
ghost use Rattle.tables.specs.Picked.{ListsRows, is_kind};

use crate::entries::is_batched;
use crate::list::Listed;
use rows::entry::OpSendRow;
use rules::rings::Rings;

// Which entries are chosen.
pub trait Choice {
    ghost chosen: { Self → OpSend → Bool };

    fn chooses(&self, op: &OpSendRow) -> bool
        ensures { result ≡ chosen self.now (decode_entry op.now) };
}

// The batched ones, or the others.
#[derive(Clone, Copy)]
pub struct OfKind {
    pub batched: bool,
}

impl Choice for OfKind {
    ghost chosen = { λ k op. is_kind k.batched op };

    fn chooses(&self, op: &OpSendRow) -> bool {
        is_batched(op.publish.replay.decode()) == self.batched
    }
}

// Those of the first entries that are chosen, in order: of as many as can be pending.
pub fn picked<C: Choice + Copy>(
    entries: &[OpSendRow],
    choice: C,
) -> Listed<OpSendRow, { Rings::PENDING }>
    ensures { ListsRows (keeping (C.chosen choice) (take Rings.PENDING (map decode_entry entries.now))) result }
{
    let mut items = [OpSendRow::blank(); Rings::PENDING];
    let mut len = 0;
    let n = entries.len().min(Rings::PENDING);
    for i in 0..n {
        if choice.chooses(&entries[i]) {
            items[len] = entries[i];
            len += 1;
        }
    }
    Listed { items, len }
}
