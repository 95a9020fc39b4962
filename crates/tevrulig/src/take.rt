// Taking the front frame.
ghost use Rattle.std.specs.Prelude.{◌≡◌, length};
ghost use Rattle.queue.specs.Run.{take};
ghost use Rattle.queue.specs.Take.{written};
ghost use Rattle.producer.specs.Meets.{Meets};
ghost use Rattle.tevrulig.specs.Answers.{taken_answer, Left};

use producer::state::ProducerState;
use rows::outbound::OutboundRow;

// The front frame, with its payload at the start of the buffer.
#[unsafe(no_mangle)]
pub extern "C" fn tevrulig_next_outbound_frame(
    producer: &mut ProducerState,
    store: &[u8],
    buffer: &mut [u8],
    frame: &mut OutboundRow,
) -> u32
    ensures meets { Meets store.now (take (length buffer.old)) producer.old producer.new (taken_answer store.now buffer.new result frame.new) }
    ensures buffer_after { buffer.new ≡ written (taken_answer store.now buffer.new result frame.new) buffer.old }
    ensures kept { Left result producer.old producer.new }
    ensures frame { Left result frame.old frame.new }
{
    match producer.take(store, buffer) {
        Ok(f) => {
            *frame = OutboundRow::encode(f);
            0
        }
        Err(e) => e.number(),
    }
}
