// 4 bytes big-endian.
ghost use Rattle.std.specs.Prelude.{◌≤◌, length};
ghost use Rattle.wire.specs.Proto.{be32};
ghost use Rattle.wire.specs.Buffer.{Puts};

#[tactic(auto, unfolding(crate::specs::Proto::be32))]
pub fn put_be32(out: &mut [u8], n: usize) -> usize
    requires { 4 ≤ length out.old }
    ensures { Puts (be32 n) out.old out.new result }
{
    out[..4].copy_from_slice(&n.to_be_bytes()[4..]);
    4
}
