// Replays the recorded answers of the Rust (docs/SCRIPT.md, 'The recorded sample'): how many records there are, which do not
// agree, and how many agree.
#![tactic(auto)]

ghost use Rattle.std.specs.Prelude.{◌≤◌, length};

use host::run::run_script;
use std::io;
use std::io::Read;

fn line(rt: &impl Print, n: u64) -> io::Result<()> {
    rt.println(n)
}

// Reads until the buffer is full, the input ends or a read fails, and answers how many bytes it put at its start.
fn read_full(input: &mut impl Read, buffer: &mut [u8]) -> usize
    ensures { result ≤ length buffer.new }
{
    let mut done = 0;
    while done < buffer.len() {
        let n = input.read(&mut buffer[done..]).unwrap_or(0);
        if n == 0 {
            break;
        }
        done += n;
    }
    done
}

fn read_u32(input: &mut impl Read) -> usize {
    let mut four = [0u8; 4];
    read_full(input, &mut four);
    u32::from_le_bytes(four) as usize
}

// So many bytes as stand before them, read to the start of a buffer.
fn read_bytes<'a>(input: &mut impl Read, buffer: &'a mut [u8]) -> &'a [u8]
    ensures { length result.now ≤ length buffer.old }
{
    let n = read_u32(input).min(buffer.len());
    let part = &mut buffer[..n];
    read_full(input, part);
    part
}

// A record's script and the Rust's answers, as they are read, and the port's answers.
#[derive(Drop)]
struct Record {
    script: [u8; 131072],
    answers: [u8; 32768],
    out: [u8; 131072],
}

impl Record {
    fn blank() -> Record {
        Record {
            script: [0; 131072],
            answers: [0; 32768],
            out: [0; 131072],
        }
    }

    // Of the next record.
    fn agrees(&mut self, input: &mut impl Read) -> bool {
        let out = &mut self.out[..];
        let room = read_u32(input).min(out.len());
        let script = read_bytes(input, &mut self.script);
        let answers = read_bytes(input, &mut self.answers);
        let k = run_script(script, &mut out[..room]);
        answers == &out[..k]
    }

    fn replay(&mut self, rt: &impl Print, input: &mut impl Read, count: usize) -> io::Result<u64> {
        let mut good: u64 = 0;
        for i in 0..count {
            if self.agrees(input) {
                good = good.saturating_add(1);
            } else {
                line(rt, i as u64)?;
            }
        }
        Ok(good)
    }
}

fn main(rt: HostRuntime) -> io::Result<()> {
    let mut input = rt.stdin();
    let mut head = [0u8; 5];
    read_full(&mut input, &mut head);
    let count = read_u32(&mut input);
    line(&rt, count as u64)?;
    let good = Record::blank().replay(&rt, &mut input, count)?;
    line(&rt, good)
}
