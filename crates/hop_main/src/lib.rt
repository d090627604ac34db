// The program: at most the first 16,384 bytes of standard input are a script, and its text goes to standard output.
#![tactic(auto)]

ghost use Rattle.std.specs.Prelude.{◌≤◌, length, IfOk};
ghost use Rattle.hop_text.specs.Writing.{Wrote};
ghost use Rattle.hop_replay.specs.Replay as text;

use hop_replay::replay;
use std::io;
use std::io::Read;

// The program on bytes: the text of a script over a state in a buffer of 61,966 bytes, which holds 27 nodes.
#[tactic(auto, unfolding(hop_replay::specs::Replay::program))]
pub fn program(script: &[u8], out: &mut [u8]) -> usize
    ensures { Wrote (text.program script.now) out.old 0 out.new result × (result ≤ 92072) }
{
    let mut state = [0u8; 61966];
    replay(script, &mut state, out)
}

// Reads until `buf` is full or the input ends, and gives how many bytes it put at the start of `buf`.
// A loop of its own: the library's `read_exact` fails where the input ends first, and `read_to_end` wants a `Vec`, which is on the heap.
fn read_full<R: Read>(reader: &mut R, buf: &mut [u8]) -> io::Result<usize>
    ensures { IfOk result (λ n. n ≤ length buf.new) }
{
    let mut done = 0;
    while done < buf.len() {
        let n = reader.read(&mut buf[done..])?;
        if n == 0 {
            break;
        }
        done += n;
    }
    Ok(done)
}

// Reads standard input, and writes the text that `program` gives: the part of the program that no contract covers.
// No text is longer than 92,072 bytes: a header of 23, 4,097 event lines of at most 17, and at most 1,600 `d` lines of at most 14.
pub fn run(rt: &(impl Input + Print)) -> io::Result<()> {
    let mut input = [0u8; 16384];
    let mut out = [0u8; 92072];
    let n = read_full(&mut rt.reader(), &mut input)?;
    let m = program(&input[..n], &mut out);
    rt.write_all(&out[..m])
}
