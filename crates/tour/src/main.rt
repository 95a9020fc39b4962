// A tour: a rate table goes out in chunks between two batches and a single message; its frames are taken, receipts come back,
// and the frames are read back into the messages. Then the line breaks twice in a row, and a carrier wants smaller chunks.
#![tactic(auto)]

mod compare;
mod fields;
mod frame;
mod headroom;
mod list;
mod message;
mod read;
mod receipts;
mod reconnect;
mod send;
mod show;
mod story;
mod take;
mod tour;
mod words;

use std::io;
use tour::Tour;

// The store: rows of 32 bytes, of which the last, the rate table, is longer.
fn main(rt: HostRuntime) -> io::Result<()> {
    let mut tour = Tour::new(
        &rt,
        b"north   quote 41: 12.50 EUR     \
          south   quote 42: 9.80 EUR      \
          west    quote 40: 15.10 EUR     \
          south   quote 42 accepted       \
          -       quote 40 closed         \
          rates   zone A 1 kg 4.20 5 kg 6.90; zone B 1 kg 5.10 5 kg 7.80; \
          zone C 1 kg 6.30 5 kg 9.40; zone D 1 kg 8.00 5 kg 9.95",
    );
    tour.run()
}
