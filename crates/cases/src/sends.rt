// The cases that run sends.
use producer::push::Given;
use producer::state::ProducerState;
use rows::message::MessageRow;
use rules::blank::no_message;
use std::io;
use types::answer::SendDecision;
use types::error::ProducerError;
use types::memory_limit::MemoryReservation;
use types::message::{OutgoingMessage, Part};
use types::settings::Setting;
use types::types::ProducerHandle;

// The first `len` bytes of the store, with nothing else set.
fn message(len: usize) -> OutgoingMessage {
    OutgoingMessage {
        payload: Part { start: 0, len },
        num_messages: 1,
        ..no_message()
    }
}

// What comes beside the message.
fn given() -> Given {
    Given {
        reservation: MemoryReservation { bytes: 0 },
        uuid: [0; 16],
        publish_time: 1,
        now: 1,
    }
}

// A fresh producer with a feature on and a limit.
fn with(feature: Setting, limit: Setting) -> ProducerState {
    let fresh = ProducerState::new(ProducerHandle(7));
    fresh.set(feature).state.set(limit).state
}

fn decision(
    rt: &impl Print,
    name: &str,
    answer: Result<SendDecision, ProducerError>,
) -> io::Result<()> {
    match answer {
        Ok(SendDecision::Emit { count }) => print!(rt; "{name} Emit {count}"),
        Ok(SendDecision::Batched) => print!(rt; "{name} Batched"),
        Err(e) => print!(rt; "{name} refused {}", e.number()),
    }
}

// A send under these settings: its answer, and the frames that wait then.
fn sent(rt: &impl Print, name: &str, state: ProducerState, len: usize) -> io::Result<()> {
    let store = [0; 5121];
    let r = state.queue_send(&store, message(len), [0; 16], 1, 1);
    decision(rt, name, r.answer)?;
    println!(rt; " {}", r.state.outbound_len())
}

// A producer that cuts, under a headroom and a limit.
fn cutting(headroom: usize, limit: usize) -> ProducerState {
    let mut state = ProducerState::new(ProducerHandle(7));
    for setting in [
        Setting::ChunkingEnabled(true),
        Setting::MetadataReservation(headroom),
        Setting::MaxMessageSize(limit),
    ] {
        let _ = state.change(setting);
    }
    state
}

const LARGE: usize = 262_146;

// A message one byte longer than the limit, and the payload lengths of its frames.
fn cut(
    rt: &impl Print,
    store: &[u8; LARGE],
    buffer: &mut [u8; LARGE],
    headroom: usize,
    limit: usize,
) -> io::Result<()> {
    let mut state = cutting(headroom, limit);
    let m = MessageRow::encode(message(limit.saturating_add(1)));
    let answer = state.send(store, &m, given());
    print!(rt; "K6 {headroom} {limit}")?;
    decision(rt, "", answer)?;
    for _ in 0..state.waiting_count() {
        if let Ok(f) = state.take(store, buffer) {
            print!(rt; " {}", f.payload_len)?;
        }
    }
    println!(rt)
}

// Size limit 0, empty payload: joins and is flushed in the same call.
pub fn joins_and_is_flushed(rt: &impl Print) -> io::Result<()> {
    let state = with(
        Setting::BatchingEnabled(true),
        Setting::MaxBatchSizeBytes(0),
    );
    sent(rt, "B3", state, 0)
}

// Limit 5: 1,024 chunks are taken, one more is not.
pub fn as_many_chunks_as_frames(rt: &impl Print) -> io::Result<()> {
    let state = with(Setting::ChunkingEnabled(true), Setting::MaxMessageSize(5));
    sent(rt, "C4", state, 5120)?;
    sent(rt, "C4", state, 5121)
}

// On both sides of four times the headroom.
pub fn chunks_under_a_headroom(rt: &impl Print) -> io::Result<()> {
    let store = [0; LARGE];
    let mut buffer = [0; LARGE];
    for (headroom, limit) in [
        (0, 0),
        (0, 1),
        (0, 5),
        (1, 4),
        (1, 5),
        (1_024, 4_096),
        (1_024, 4_097),
        (65_536, 262_144),
        (65_536, 262_145),
    ] {
        cut(rt, &store, &mut buffer, headroom, limit)?;
    }
    Ok(())
}

// Limit 5, headroom 1, chunks of 4: 1,024 are taken, one more is not, though chunks of 5 would be few enough.
pub fn frames_counted_under_a_headroom(rt: &impl Print) -> io::Result<()> {
    sent(rt, "K6", cutting(1, 5), 4096)?;
    sent(rt, "K6", cutting(1, 5), 4097)
}
