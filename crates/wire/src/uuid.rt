// The text form of a uuid (document 01, 'producer.rs: sends').
ghost use Rattle.std.specs.Prelude.{◌≡◌, ◌<◌};
ghost use Rattle.wire.specs.Uuid.{hex_digit, hex_byte, dash, text_from, uuid_text};
ghost use Rattle.wire.specs.Buffer.{Room, Puts};

fn hex_digit(n: u8) -> u8
    requires { n < 16 }
    ensures { result ≡ hex_digit n }
{
    if n < 10 { b'0' + n } else { b'a' + (n - 10) }
}

fn put_hex(out: &mut [u8], b: u8) -> usize
    requires { Room (hex_byte b) out.old }
    ensures { Puts (hex_byte b) out.old out.new result }
{
    out[0] = hex_digit(b / 16);
    out[1] = hex_digit(b % 16);
    2
}

fn put_dash(out: &mut [u8], i: usize) -> usize
    requires { Room (dash i) out.old }
    ensures { Puts (dash i) out.old out.new result }
{
    match i {
        4 | 6 | 8 | 10 => {
            out[0] = b'-';
            1
        }
        _ => 0,
    }
}

fn put_uuid(out: &mut [u8], uuid: &[u8]) -> usize
    requires { Room (text_from 0 uuid.now) out.old }
    ensures { Puts (text_from 0 uuid.now) out.old out.new result }
{
    let mut n = 0;
    for (i, b) in uuid.iter().enumerate() {
        n += put_dash(&mut out[n..], i);
        n += put_hex(&mut out[n..], *b);
    }
    n
}

// 16 bytes as 36 lowercase characters, 8-4-4-4-12.
pub fn uuid_text(uuid: [u8; 16]) -> [u8; 36]
    ensures { result ≡ uuid_text uuid }
{
    let mut text = [0u8; 36];
    put_uuid(&mut text, &uuid);
    text
}
