// How many frames entries have.
ghost use Rattle.std.specs.Prelude.{◌≡◌, map};
ghost use Rattle.rows.specs.Entry.{decode_entry};
ghost use Rattle.queue.specs.Tables.{frames_for};
ghost use Rattle.laws.specs.Numbers.{add_sat};

use crate::entries::frames_of;
use rows::entry::OpSendRow;

// A sum that would stop at 2^64 - 1 is refused all the same.
pub fn frames_for(ops: &[OpSendRow]) -> usize
    ensures { result ≡ add_sat 0 (frames_for (map decode_entry ops.now)) }
{
    ops.iter().fold(0, |sum: usize, op| {
        sum.saturating_add(frames_of(op.publish.replay.decode()))
    })
}
