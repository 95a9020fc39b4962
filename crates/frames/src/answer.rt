// What a take answers.
ghost use Rattle.std.specs.Prelude.{◌≡◌};
ghost use Rattle.frames.specs.Answer.{answer_of};

use crate::span::Span;
use types::error::ProducerError;

// 10, 2, 9 in this order; else the payload of the frame, which goes out.
pub fn answer_of(frames: usize, span: Option<Span>, room: usize) -> Result<Span, ProducerError>
    ensures { result ≡ answer_of frames span room }
{
    if frames == 0 {
        return Err(ProducerError::NoFrame);
    }
    let span = span.ok_or(ProducerError::PartOutside)?;
    if room < span.len {
        return Err(ProducerError::TooShort);
    }
    Ok(span)
}
