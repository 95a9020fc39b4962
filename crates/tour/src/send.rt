// The messages go to the queue (document 01, 'sends').
use crate::story;
use crate::tour::Tour;
use crate::words::{Answered, bytes, frames};
use std::fmt::{self, Display, Formatter};
use std::io;
use types::answer::SendDecision;
use types::message::OutgoingMessage;

// For the chunks.
const UUID: [u8; 16] = [
    0x00, 0x11, 0x22, 0x33, 0x44, 0x55, 0x66, 0x77, 0x88, 0x99, 0xaa, 0xbb, 0xcc, 0xdd, 0xee, 0xff,
];

// The time of every call.
const NOW: u64 = 1_700_000_000_500;

// What becomes of a message. A send that pushes more frames than its message has flushes the waiting batch.
#[derive(Clone, Copy)]
struct Decided {
    decision: SendDecision,
    pushed: usize,
}

impl Display for Decided {
    fn fmt<W: fmt::Write>(&self, f: &mut Formatter<W>) -> fmt::Result {
        match self.decision {
            SendDecision::Emit { count } if count < self.pushed => {
                write!(f, "flushes the batch and goes out in {}", frames(count))
            }
            SendDecision::Emit { count } => write!(f, "goes out in {}", frames(count)),
            SendDecision::Batched => f.write_str("joins the batch"),
        }
    }
}

impl<P: Print> Tour<'_, P> {
    pub fn send(&mut self, m: OutgoingMessage) -> io::Result<()> {
        let waiting = self.state.outbound_len();
        let r = self.state.queue_send(self.store, m, UUID, NOW, NOW);
        self.state = r.state;
        let pushed = self.state.outbound_len().saturating_sub(waiting);
        let answer = Answered(r.answer.map(|decision| Decided { decision, pushed }));
        print!(self.out; " of {}: {answer}; ", bytes(m.payload.len))?;
        self.say_standing()
    }

    // In their order.
    pub fn send_all(&mut self) -> io::Result<()> {
        for (id, (what, m)) in (1u64..).zip(story::messages()) {
            print!(self.out; "message {id}, {what}")?;
            self.send(m)?;
        }
        Ok(())
    }

    // A refused send changes nothing, and no id is spent on it.
    pub fn send_too_long(&mut self) -> io::Result<()> {
        print!(self.out; "one more message")?;
        self.send(story::too_long())
    }

    pub fn flush(&mut self) -> io::Result<()> {
        let r = self.state.flush_batch(NOW, NOW);
        self.state = r.state;
        print!(self.out; "flush: {}; ", Answered(r.answer.map(frames)))?;
        self.say_standing()
    }
}
