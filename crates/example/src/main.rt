// A program of one's own over `producer`: one message goes out, and its frame is shown; then the line breaks twice.
#![tactic(auto)]

mod first;
mod reconnect;

use first::first_message;
use reconnect::reconnect_twice;
use rows::entry::OpSendRow;
use rules::blank::no_message;
use std::io;
use types::message::{OutgoingMessage, Part};
use types::types::ProducerHandle;

fn main(rt: HostRuntime) -> io::Result<()> {
    let quote = OutgoingMessage {
        payload: Part { start: 0, len: 5 },
        num_messages: 1,
        ..no_message()
    };
    let mut buffer = [0; 64];
    let handle = ProducerHandle(7);
    let mut first = first_message(handle, b"quote", quote, [0; 16], 1, &mut buffer);
    match first.taken {
        Ok(f) => {
            print!(rt; "the frame of quote:")?;
            for byte in buffer.iter().take(f.payload_len) {
                print!(rt; " {byte:02x}")?;
            }
            println!(rt)?;
        }
        Err(e) => println!(rt; "refused by {}", e.number())?,
    }
    let twice = reconnect_twice(
        &mut first.state,
        &mut [OpSendRow::blank(); 1],
        &mut [OpSendRow::blank(); 1],
    );
    match twice {
        Ok(n) => println!(rt;
            "two reconnects: {} dropped, {} put back",
            n.dropped, n.replay
        ),
        Err(e) => println!(rt; "refused by {}", e.number()),
    }
}
