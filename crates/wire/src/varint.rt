// Base-128 varints, one writer for 32 and 64 bits. The loops are no `for`: only their end shows how many bytes there are.
ghost use Rattle.std.specs.Prelude.{◌≡◌, ◌≤◌, length};
ghost use Rattle.wire.specs.Proto.{varint};
ghost use Rattle.wire.specs.Buffer.{Room, Puts};

#[tactic(auto, using(crate::proofs::VarintLaws::byte_steps))]
pub fn varint_len(v: u64) -> usize
    ensures { (result ≡ length (varint v)) × (result ≤ 10) }
{
    let mut rest = v;
    let mut n = 1;
    while 128 <= rest {
        rest /= 128;
        n += 1;
    }
    n
}

pub fn put_varint(out: &mut [u8], v: u64) -> usize
    requires { Room (varint v) out.old }
    ensures { Puts (varint v) out.old out.new result }
{
    let mut rest = v;
    let mut n = 0;
    while 128 <= rest {
        out[n] = (rest % 128 + 128) as u8;
        rest /= 128;
        n += 1;
    }
    out[n] = rest as u8;
    n + 1
}
