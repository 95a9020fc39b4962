// A tariff engine's producer, and the messages that it is to send.
use producer::state::ProducerState;
use rules::blank::no_message;
use std::io;
use types::message::{OutgoingMessage, Part};
use types::settings::Setting;
use types::txn::TxnId;
use types::types::{MessageId, ProducerHandle, SequenceId};

// Payload length above which a message goes out in chunks.
pub const MESSAGE_LIMIT: usize = 50;

// Payload bytes that a batch holds: fewer than the rate table has.
pub const BATCH_LIMIT: usize = 100;

// A producer that batches and chunks, whose first sequence id is 1.
pub fn tariff() -> ProducerState {
    let mut s = ProducerState::new(ProducerHandle(7))
        .set_name(b"tariff")
        .state;
    for setting in [
        Setting::BatchingEnabled(true),
        Setting::ChunkingEnabled(true),
        Setting::MaxMessageSize(MESSAGE_LIMIT),
        Setting::MaxBatchSizeBytes(BATCH_LIMIT),
    ] {
        s = s.set(setting).state;
    }
    s.set_initial_sequence_id(SequenceId(1))
}

pub fn introduce(out: &impl Print) -> io::Result<()> {
    println!(out;
        "Producer tariff: a message over {MESSAGE_LIMIT} bytes goes out in chunks, a batch holds up to {BATCH_LIMIT} bytes of payload."
    )
}

// A row of the store: a key in its first 8 bytes, a payload behind them.
fn row(start: usize, key_len: usize, len: usize) -> OutgoingMessage {
    OutgoingMessage {
        payload: Part {
            start: start.saturating_add(8),
            len,
        },
        partition_key: Some(Part {
            start,
            len: key_len,
        }),
        num_messages: 1,
        ..no_message()
    }
}

fn transaction() -> Option<TxnId> {
    Some(TxnId {
        most_sig_bits: 1,
        least_sig_bits: 7,
    })
}

pub fn quote() -> OutgoingMessage {
    OutgoingMessage {
        event_time: Some(1_700_000_000_000),
        ..row(0, 5, 19)
    }
}

// A null value takes back what the key stood for.
fn withdrawal() -> OutgoingMessage {
    OutgoingMessage {
        null_value: Some(true),
        ..row(0, 5, 0)
    }
}

pub fn rate_table() -> OutgoingMessage {
    row(160, 5, 110)
}

// A message with a source message id is not batchable.
fn replicated_quote() -> OutgoingMessage {
    OutgoingMessage {
        source_message_id: Some(MessageId {
            ledger_id: 3,
            entry_id: 14,
            partition: -1,
            batch_index: -1,
            batch_size: -1,
        }),
        ..row(64, 4, 19)
    }
}

// Ordered by the quote's number, which is a part of the payload.
fn acceptance() -> OutgoingMessage {
    OutgoingMessage {
        ordering_key: Some(Part { start: 110, len: 2 }),
        txn_id: transaction(),
        ..row(96, 5, 17)
    }
}

fn summary() -> OutgoingMessage {
    OutgoingMessage {
        partition_key: None,
        null_partition_key: Some(true),
        txn_id: transaction(),
        ..row(128, 0, 15)
    }
}

// The messages in their order, and what each is. They are numbered from 1, as their sequence ids are.
pub fn messages() -> [(&'static str, OutgoingMessage); 7] {
    [
        ("a quote", quote()),
        ("a quote", row(32, 5, 18)),
        ("a quote taken back,", withdrawal()),
        ("the rate table", rate_table()),
        ("a replicated quote", replicated_quote()),
        ("in a transaction,", acceptance()),
        ("in a transaction,", summary()),
    ]
}

// A mistake: the store ends before it does.
pub fn too_long() -> OutgoingMessage {
    row(160, 5, 200)
}
