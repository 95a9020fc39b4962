// Signed readings of 64 bits, where the Rust has `as i64` and `saturating_sub(1)`.
ghost use Rattle.std.specs.Prelude.{◌≡◌};
ghost use Rattle.laws.specs.Numbers.{signed, bits, less_one};

// The signed number of the same bits.
pub fn signed_of(x: u64) -> i64
    ensures { result ≡ signed x }
{
    x.cast_signed()
}

// The bits of a signed number.
pub fn bits_of(x: i64) -> u64
    ensures { result ≡ bits x }
{
    x.cast_unsigned()
}

// One less, stopping at -2^63.
pub fn saturating_sub_one(x: i64) -> i64
    ensures { result ≡ less_one x }
{
    x.saturating_sub(1)
}
