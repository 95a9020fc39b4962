// What a send has reserved of the client's memory. Of a reservation only its byte count is ported.
ghost use Rattle.std.specs.Prelude.{◌≡◌};
ghost use Rattle.types.specs.MemoryLimit.{reservable};

#[derive(Clone, Copy, PartialEq, Eq)]
#[repr(C)]
pub struct MemoryReservation {
    pub bytes: u64,
}

impl MemoryReservation {
    // The largest byte count that a send takes (refusal 3).
    pub const MAX_BYTES: u64 = 0xff_ffff_ffff;

    // Whether a send takes it.
    pub fn within_bound(self) -> bool
        ensures { result ≡ reservable self.bytes }
    {
        self.bytes <= MemoryReservation::MAX_BYTES
    }
}
