// The frames are taken from the front, and kept.
use crate::frame::Frame;
use crate::list::List;
use crate::message::bytes_at;
use crate::show;
use crate::tour::Tour;
use crate::words::Refused;
use std::io;
use types::message::Part;
use types::outbound::OutboundFrame;

// The frames taken so far and their bytes: payloads one behind the other, and keys likewise. No heap is allowed here, so the
// memory is fixed, and beside it stands how far it is used.
#[derive(Drop)]
pub struct Taken {
    pub frames: List<Frame, 16>,
    pub bytes: [u8; 1024],
    payloads: usize,
    keys: usize,
}

// Where the keys begin, behind the payloads.
const KEYS: usize = 768;

impl Taken {
    pub fn none() -> Taken {
        Taken {
            frames: List::empty(),
            bytes: [0; 1024],
            payloads: 0,
            keys: KEYS,
        }
    }

    // Where the next payload goes.
    fn room(&mut self) -> &mut [u8] {
        &mut self.bytes[self.payloads.min(KEYS)..KEYS]
    }

    // A key of the store, kept. None where there is none, or no room for it.
    fn put(&mut self, store: &[u8], key: Option<Part>) -> Option<Part> {
        let key = bytes_at(store, key?);
        let end = self.keys.checked_add(key.len())?;
        self.bytes.get_mut(self.keys..end)?.copy_from_slice(key);
        let part = Part {
            start: self.keys,
            len: key.len(),
        };
        self.keys = end;
        Some(part)
    }

    // A frame more, whose payload is in the bytes already: its part of them. What finds no room is left out.
    fn keep(&mut self, store: &[u8], f: &OutboundFrame) -> Part {
        let payload = Part {
            start: self.payloads,
            len: f.payload_len,
        };
        let partition_key = self.put(store, f.metadata.partition_key);
        let ordering_key = self.put(store, f.metadata.ordering_key);
        self.payloads = self.payloads.saturating_add(f.payload_len);
        let frame = Frame::of(&f.metadata, payload, partition_key, ordering_key);
        self.frames.push(frame);
        payload
    }
}

impl<P: Print> Tour<'_, P> {
    // Shows the frame taken, and keeps it; or shows the refusal.
    pub fn take(&mut self) -> io::Result<()> {
        let r = self
            .state
            .next_outbound_frame(self.store, self.taken.room());
        self.state = r.state;
        match r.answer {
            Ok(f) => {
                let payload = self.taken.keep(self.store, &f);
                let place = self.taken.frames.len();
                show::frame(self.out, place, &f, bytes_at(&self.taken.bytes, payload))
            }
            Err(e) => println!(self.out; "one more take: {}", Refused(e)),
        }
    }

    // Every frame that waits, and a take more, which is refused.
    pub fn take_all(&mut self) -> io::Result<()> {
        for _ in 0..=self.state.outbound_len() {
            self.take()?;
        }
        Ok(())
    }
}
