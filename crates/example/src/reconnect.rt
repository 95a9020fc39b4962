// A line that breaks twice in a row: where the first reconnect is carried out, the second changes nothing (docs/ORDER.md,
// 'Reconnecting').
ghost use Rattle.std.specs.Prelude.{◌≡◌, take};
ghost use Rattle.example.specs.Reconnects.{Ended, AsOnce};

use producer::state::ProducerState;
use rows::entry::OpSendRow;
use tables::snapshot::Snapshot;
use types::error::ProducerError;

// What a snapshot has written to its replay table.
fn written(counts: Snapshot, replay: &[OpSendRow]) -> &[OpSendRow]
    ensures { result.now ≡ take counts.replay replay.now }
{
    &replay[..counts.replay.min(replay.len())]
}

// A snapshot, and the replay of all that it hands out to be sent again. A snapshot that is refused ends it, and nothing has
// changed; behind a replay that is refused, what was pending stands in the tables alone.
pub fn reconnect(
    state: &mut ProducerState,
    dropped: &mut [OpSendRow],
    replay: &mut [OpSendRow],
) -> Result<Snapshot, ProducerError>
    ensures { Ended dropped.old replay.old state.old state.new dropped.new replay.new result }
{
    let cut = state.snapshot_pending_sends(dropped, replay);
    let counts = cut.answer?;
    let again = cut.state.replay_snapshots(written(counts, replay));
    *state = again.state;
    again.answer?;
    Ok(counts)
}

// Both reconnects, with the same tables; it answers what the first does.
pub fn reconnect_twice(
    state: &mut ProducerState,
    dropped: &mut [OpSendRow],
    replay: &mut [OpSendRow],
) -> Result<Snapshot, ProducerError>
    ensures { AsOnce dropped.old replay.old state.old state.new result }
{
    let first = reconnect(state, dropped, replay)?;
    reconnect(state, dropped, replay)?;
    Ok(first)
}
