// How many entries a snapshot hands out to its two tables.
ghost use Rattle.std.specs.Prelude.{◌≡◌};
ghost use Rattle.tables.specs.Snapshot.{snapshot_of};

use types::error::ProducerError;

// So many entries are dropped, and so many are there for a replay.
#[derive(Clone, Copy, PartialEq, Eq)]
pub struct Snapshot {
    pub dropped: usize,
    pub replay: usize,
}

// 9 where one of the tables is too short: nothing is then written to either.
pub fn both_fitted(
    dropped: usize,
    replay: usize,
    dropped_room: usize,
    replay_room: usize,
) -> Result<Snapshot, ProducerError>
    ensures { result ≡ snapshot_of dropped replay dropped_room replay_room }
{
    if (dropped <= dropped_room) & (replay <= replay_room) {
        Ok(Snapshot { dropped, replay })
    } else {
        Err(ProducerError::TooShort)
    }
}
