// The dump: all that can be asked of a producer, and its pending entries.
ghost use Rattle.script.specs.Output.{Writes};

use producer::state::ProducerState;
use script::answer::{put_core, put_done};
use script::operation::Call;
use script::write::{Output, low_half};

pub fn put_dump(s: &ProducerState, out: &mut Output)
    ensures { Writes out.old out.new }
{
    let core = s.core.decode();
    let ring = core.rings.pending;
    put_done(out, Call::Dump, ());
    put_core(out, core, s.send_deadline());
    out.put(low_half(ring.count() as u64));
    for i in 0..ring.count() {
        let at = ring.slot(i);
        let id = s.pending_ids[at];
        // Of the id: one entry that keeps it in the index serves all that bear it.
        out.put((s.place_of(id).is_some(), id, s.pending[at].decode()));
    }
}
