// Whether the messages read are those that were sent.
use crate::message::Message;
use crate::read::read_all;
use crate::tour::Tour;
use crate::{show, story};
use rules::batch::single_of;
use std::io;

impl<P: Print> Tour<'_, P> {
    pub fn compare(&self) -> io::Result<()> {
        let Some(read) = read_all(&self.taken) else {
            return println!(self.out; "a frame has no reading");
        };
        let sent = story::messages();
        let len = read.len();
        let mut same = len == sent.len();
        for (id, (m, (_, s))) in (1u64..).zip(read.iter().zip(sent)) {
            show::message(self.out, id, m)?;
            same &= *m == Message::at(self.store, &single_of(s), s.txn_id);
        }
        println!(self.out;
            "{} messages sent, {len} read, the same in every field and in order: {}",
            sent.len(),
            if same { "yes" } else { "no" }
        )
    }
}
