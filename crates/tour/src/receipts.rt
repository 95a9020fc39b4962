// Receipts come back (document 01, 'receipts, errors, snapshot, replay').
use crate::tour::Tour;
use crate::words::Answered;
use std::fmt::{self, Display, Formatter};
use std::io;
use types::command::CommandSendReceipt;
use types::types::{MessageId, MessageIdData, ProducerHandle, SequenceId};

// The broker has stored the message under that id as this entry of ledger 9.
fn receipt(id: SequenceId, entry_id: u64) -> CommandSendReceipt {
    CommandSendReceipt {
        producer_id: ProducerHandle(7),
        sequence_id: id,
        message_id: Some(MessageIdData {
            ledger_id: 9,
            entry_id,
            partition: None,
            batch_index: None,
            batch_size: None,
        }),
    }
}

#[derive(Clone, Copy)]
struct Settled(MessageId);

impl Display for Settled {
    fn fmt<W: fmt::Write>(&self, f: &mut Formatter<W>) -> fmt::Result {
        write!(
            f,
            "settled, stored as {}:{}",
            self.0.ledger_id, self.0.entry_id
        )
    }
}

impl<P: Print> Tour<'_, P> {
    fn apply(&mut self, id: SequenceId, entry_id: u64) -> io::Result<()> {
        let r = self.state.apply_receipt(receipt(id, entry_id));
        self.state = r.state;
        let answer = Answered(r.answer.map(|(_, id)| Settled(id)));
        let published = self.state.core.ids.last_sequence_id_published;
        println!(self.out;
            "receipt for id {}: {answer}; published number {published}, {} pending",
            id.0,
            self.pending()
        )
    }

    // One receipt settles one entry, also of a batch. That for 5 comes before that for 4, and nothing was sent under 9.
    pub fn apply_all(&mut self) -> io::Result<()> {
        for (id, entry_id) in [
            (1, 0),
            (2, 0),
            (3, 0),
            (5, 4),
            (4, 3),
            (9, 5),
            (6, 5),
            (7, 5),
        ] {
            self.apply(SequenceId(id), entry_id)?;
        }
        Ok(())
    }

    // Each chunk counts as a message; of a batch the whole payload counts, headers included. No receipt is counted.
    pub fn counters(&self) -> io::Result<()> {
        let c = self.state.stats().counters;
        println!(self.out;
            "sent {} messages, each chunk counted, in {} payload bytes; {} failed",
            c.total_msgs_sent, c.total_bytes_sent, c.total_send_failed
        )?;
        self.say_standing()
    }
}
