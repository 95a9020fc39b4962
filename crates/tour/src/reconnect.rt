// The line breaks twice before a frame is out (document 01, 'receipts, errors, snapshot, replay'; document 02, K14).
use crate::story;
use crate::tour::Tour;
use crate::words::{Answered, entries};
use rows::entry::OpSendRow;
use std::fmt::{self, Display, Formatter};
use std::io;
use tables::snapshot::Snapshot;

// As many entries as are pending at the most.
const TABLE: usize = 2;

#[derive(Clone, Copy)]
struct Cut(Snapshot);

impl Display for Cut {
    fn fmt<W: fmt::Write>(&self, f: &mut Formatter<W>) -> fmt::Result {
        write!(
            f,
            "{} dropped, {} put back",
            entries(self.0.dropped as u64),
            self.0.replay
        )
    }
}

impl<P: Print> Tour<'_, P> {
    // A snapshot, and the replay of all that it hands out to be sent again; a refused one ends it.
    fn reconnect(&mut self, what: &str) -> io::Result<()> {
        let mut dropped = [OpSendRow::blank(); TABLE];
        let mut replay = [OpSendRow::blank(); TABLE];
        let cut = self.state.snapshot_pending_sends(&mut dropped, &mut replay);
        self.state = cut.state;
        let answer = match cut.answer {
            Ok(n) => {
                let again = self.state.replay_snapshots(&replay[..n.replay.min(TABLE)]);
                self.state = again.state;
                again.answer.map(|()| Cut(n))
            }
            Err(e) => Err(e),
        };
        print!(self.out; "{what}: {}; ", Answered(answer))?;
        self.say_standing()
    }

    // The first drops the message that joined a batch, and the chunks start anew; the second changes nothing.
    pub fn reconnect_twice(&mut self) -> io::Result<()> {
        print!(self.out; "the rate table")?;
        self.send(story::rate_table())?;
        print!(self.out; "a quote")?;
        self.send(story::quote())?;
        self.take()?;
        self.say_standing()?;
        self.reconnect("a reconnect")?;
        self.reconnect("another one")
    }
}
