// What the steps of the tour share, and their order.
use crate::headroom::HEADROOM;
use crate::story;
use crate::take::Taken;
use crate::words::{Count, entries, frames};
use producer::state::ProducerState;
use std::io;

// Where the lines go, the store, the producer, and the frames taken from it.
#[derive(Drop)]
pub struct Tour<'a, P> {
    pub out: &'a P,
    pub store: &'a [u8],
    pub state: ProducerState,
    pub taken: Taken,
}

impl<'a, P: Print> Tour<'a, P> {
    pub fn new(out: &'a P, store: &'a [u8]) -> Tour<'a, P> {
        Tour {
            out,
            store,
            state: story::tariff(),
            taken: Taken::none(),
        }
    }

    pub fn pending(&self) -> Count {
        entries(self.state.stats().pending_queue_size)
    }

    // What waits and is pending.
    pub fn say_standing(&self) -> io::Result<()> {
        println!(self.out;
            "{} waiting, {} pending",
            frames(self.state.outbound_len()),
            self.pending()
        )
    }

    pub fn run(&mut self) -> io::Result<()> {
        story::introduce(self.out)?;
        println!(self.out; "\nSends")?;
        self.send_all()?;
        self.send_too_long()?;
        self.flush()?;
        println!(self.out; "\nFrames")?;
        self.take_all()?;
        println!(self.out; "\nReceipts")?;
        self.apply_all()?;
        println!(self.out; "\nCounters")?;
        self.counters()?;
        println!(self.out; "\nMessages read back from the frames")?;
        self.compare()?;
        println!(self.out; "\nTwo reconnects in a row")?;
        self.reconnect_twice()?;
        println!(self.out; "\nA headroom of {HEADROOM} bytes")?;
        self.make_headroom()
    }
}
