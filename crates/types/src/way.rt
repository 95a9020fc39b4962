// What a send does with its message, decided before anything changes.

#[derive(Clone, Copy, PartialEq, Eq)]
pub enum Way {
    // Over the limit with chunking off; whether the waiting batch is flushed all the same.
    TooLarge {
        before: bool,
    },
    // Joins the open batch; whether that is flushed before and after.
    Join {
        before: bool,
        after: bool,
    },
    // One frame; whether the waiting batch is flushed before.
    Single {
        before: bool,
    },
    // Chunks of this size, so many.
    Chunked {
        before: bool,
        max_chunk_size: u32,
        total_chunks: u32,
    },
}
