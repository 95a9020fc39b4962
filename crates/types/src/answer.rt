// What a send answers that is not refused.

// `Emit` counts the frames of the message itself.
#[derive(Clone, Copy, PartialEq, Eq)]
pub enum SendDecision {
    Emit { count: usize },
    Batched,
}
