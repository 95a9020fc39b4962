// What a call answers, and the state after it. A method by value is one step by reference on the state that it was handed; the
// step is not inlined, so that the compiler has that state in the answer from the start (docs/DECISIONS.md, 'What a call costs').
use crate::state::ProducerState;
use types::error::ProducerError;

#[derive(Clone, Copy)]
pub struct Answered<T> {
    pub answer: Result<T, ProducerError>,
    pub state: ProducerState,
}
