// The entries whose id no waiting frame bears (document 01, 'receipts, errors, snapshot, replay').
ghost use Rattle.std.specs.Prelude.{◌≡◌};
ghost use Rattle.tables.specs.Unborne.{borne_by, free};

use crate::pick::Choice;
use rows::entry::OpSendRow;
use types::types::SequenceId;

fn is_borne(ids: &[SequenceId], id: SequenceId) -> bool
    ensures { result ≡ borne_by id.0 ids.now }
{
    ids.contains(&id)
}

// Those whose id is none of the ids.
#[derive(Clone, Copy)]
pub struct Unborne<'a> {
    pub ids: &'a [SequenceId],
}

impl Choice for Unborne<'_> {
    ghost chosen = { λ u op. free u.ids.now op };

    fn chooses(&self, op: &OpSendRow) -> bool {
        !is_borne(self.ids, op.sequence_id)
    }
}
