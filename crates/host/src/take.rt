// The take, with the output itself as the buffer: the payload stands 10 bytes behind the answer's start.
ghost use Rattle.std.specs.Prelude.{◌≡◌, ◌-◌, ◌≤◌, length};
ghost use Rattle.script.specs.Output.{Wrote, Writes};
ghost use Rattle.host.specs.Framing.{Completes, bytes_taken};

use crate::drive::Drive;
use crate::task::Task;
use script::answer::{put_done, put_metadata};
use script::operation::Call;
use script::write::Output;
use types::error::ProducerError;
use types::outbound::OutboundFrame;

// The part of the output that a take is lent.
#[derive(Clone, Copy)]
struct Buffer {
    pub start: usize,
    pub end: usize,
    ghost onward: { start ≤ end },
}

// The payload behind the head of a frame's answer, as far as the output goes.
fn buffer_of(task: Task, out: &Output) -> Buffer
    requires { out.now.at ≤ length out.now.bytes.now }
    ensures behind { out.now.at ≤ result.start }
    ensures inside { result.end ≤ length out.now.bytes.now }
{
    let len = out.bytes.len();
    let start = out.at.saturating_add(10).min(len);
    let end = start.saturating_add(task.arguments.get()).min(len);
    Buffer { start, end }
}

// The head of a frame's answer, into the bytes before its payload.
fn put_frame_head(out: &mut [u8], n: usize) -> usize
    ensures { Wrote 0 out.old out.new result }
{
    let mut head = Output::new(out);
    put_done(&mut head, Call::NextOutboundFrame, n);
    head.at
}

// The answer of a take that was lent a part of the output as its buffer: a frame's payload stands there already.
fn put_taken(
    out: &mut Output,
    buffer: Buffer,
    store: &[u8],
    answer: Result<OutboundFrame, ProducerError>,
)
    requires { (out.old.at ≤ buffer.start) × (buffer.end ≤ length out.old.bytes.now) × (bytes_taken answer ≤ buffer.end - buffer.start) }
    ensures same_reference { out.new.bytes.ghost_name ≡ out.old.bytes.ghost_name }
    ensures completes { Completes out.old.at buffer.start (bytes_taken answer) out.old.bytes.now out.new.bytes.now out.new.at }
{
    match answer {
        Ok(frame) => {
            put_frame_head(&mut out.bytes[out.at..buffer.start], frame.payload_len);
            out.at = buffer.start + frame.payload_len;
            out.put(frame.command);
            put_metadata(out, store, frame.metadata);
        }
        Err(e) => out.put((Call::NextOutboundFrame, e)),
    }
}

pub(crate) fn call_take<D: Drive>(d: &mut D, task: Task, out: &mut Output)
    requires { out.old.at ≤ length out.old.bytes.now }
    ensures { Writes out.old out.new }
{
    let lent = task.lent_to_take();
    let buffer = buffer_of(task, out);
    let answer = d.next_outbound_frame(lent, &mut out.bytes[buffer.start..buffer.end]);
    put_taken(out, buffer, lent, answer);
}
