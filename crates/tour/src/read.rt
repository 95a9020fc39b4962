// The frames are read back into messages, by their layout alone (document 01, 'How demand 3 is read').
use crate::fields::item;
use crate::frame::Frame;
use crate::list::List;
use crate::message::{Message, bytes_at};
use crate::take::Taken;

// The messages read so far, and the chunks that are being joined, as one frame.
#[derive(Drop)]
struct Reader<'a> {
    bytes: &'a [u8],
    messages: List<Message<'a>, 16>,
    chunks: Option<Frame>,
}

// None from a method says that a frame has no reading.
impl<'a> Reader<'a> {
    fn single(&mut self, f: &Frame) -> Option<()> {
        self.messages
            .push(Message::at(self.bytes, &f.message, f.txn_id))
    }

    fn chunk(&mut self, f: Frame) -> Option<()> {
        let joined = match self.chunks {
            Some(chunks) => chunks.joined(&f)?,
            None if f.chunk_id == Some(0) => f,
            None => return None,
        };
        self.chunks = Some(joined);
        if joined.chunk_id?.checked_add(1)? == joined.num_chunks_from_msg? {
            self.chunks = None;
            self.single(&joined)?;
        }
        Some(())
    }

    // So many messages, filling the payload.
    fn batch(&mut self, f: &Frame, count: u64) -> Option<()> {
        let mut rest = bytes_at(self.bytes, f.message.payload);
        for _ in 0..count {
            self.messages.push(item(&mut rest, f.txn_id)?)?;
        }
        rest.is_empty().then_some(())
    }

    fn frame(&mut self, f: &Frame) -> Option<()> {
        match (f.num_messages_in_batch, f.chunk_id) {
            (None, Some(_)) => self.chunk(*f),
            _ if self.chunks.is_some() => None,
            (Some(n), _) => self.batch(f, n),
            (None, None) => self.single(f),
        }
    }
}

// None where a frame has no reading, or a chunk is missing.
pub fn read_all(taken: &Taken) -> Option<List<Message<'_>, 16>> {
    let mut reader = Reader {
        bytes: &taken.bytes,
        messages: List::empty(),
        chunks: None,
    };
    for f in taken.frames.iter() {
        reader.frame(f)?;
    }
    reader.chunks.is_none().then_some(reader.messages)
}
