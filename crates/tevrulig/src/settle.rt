// Receipts and errors.
ghost use Rattle.std.specs.Prelude.{[]};
ghost use Rattle.queue.specs.Run.{receipt, send_error};
ghost use Rattle.producer.specs.Meets.{Meets};
ghost use Rattle.rows.specs.Command.{decode_receipt, decode_error};
ghost use Rattle.tevrulig.specs.Answers.{receipt_answer, error_answer, Left};

use producer::state::ProducerState;
use rows::command::{ErrorRow, ReceiptRow};
use rows::entry::OpSendRow;
use types::types::MessageId;

// The entry that left, and the id that the message has now.
#[unsafe(no_mangle)]
pub extern "C" fn tevrulig_apply_receipt(
    producer: &mut ProducerState,
    r: &ReceiptRow,
    entry: &mut OpSendRow,
    message_id: &mut MessageId,
) -> u32
    ensures meets { Meets [] (receipt (decode_receipt r.now).sequence_id.0 (decode_receipt r.now).message_id) producer.old producer.new (receipt_answer result entry.new message_id.new) }
    ensures kept { Left result producer.old producer.new }
    ensures entry { Left result entry.old entry.new }
    ensures message_id { Left result message_id.old message_id.new }
{
    match producer.receive(r.decode()) {
        Ok((row, id)) => {
            *entry = row;
            *message_id = id;
            0
        }
        Err(e) => e.number(),
    }
}

// The entry that left, and the error's code.
#[unsafe(no_mangle)]
pub extern "C" fn tevrulig_apply_send_error(
    producer: &mut ProducerState,
    err: &ErrorRow,
    entry: &mut OpSendRow,
    code: &mut i32,
) -> u32
    ensures meets { Meets [] (send_error (decode_error err.now).sequence_id.0 (decode_error err.now).error) producer.old producer.new (error_answer result entry.new code.new) }
    ensures kept { Left result producer.old producer.new }
    ensures entry { Left result entry.old entry.new }
    ensures code { Left result code.old code.new }
{
    match producer.fail(err.decode()) {
        Ok((row, error)) => {
            *entry = row;
            *code = error;
            0
        }
        Err(e) => e.number(),
    }
}
