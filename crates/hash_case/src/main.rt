// Document 01's program: one case from standard input, 56 blocks of memory lent, one line to standard output.

#![tactic(auto)]

ghost use Rattle.std.specs.Prelude.{◌≡◌, ◌+◌, ◌<◌, ◌≤◌, OnOk, drop, length, take};
ghost use Rattle.std.specs.Io.KnownBytes.{Consumes};
ghost use Rattle.hash_case.specs.Answering.{Answers};

use block::Block;
use case_line::Case;
use std::io;
use std::io::{Read, Write};

// The blocks that the program lends.
const BLOCKS: usize = 56;

// Reads until the buffer is full, the input ends or a read fails; how many bytes of the input stand at the start of the buffer.
// No read_exact, which says nothing of a buffer that it does not fill.
fn read_full<R: Read>(input: &mut R, buf: &mut [u8]) -> usize
    ensures within { result ≤ length buf.new }
    ensures bytes { Consumes (R.remaining input.old) (R.remaining input.new) (take result buf.new) }
{
    let mut done = 0;
    while done < buf.len() {
        match input.read(&mut buf[done..]) {
            Ok(0) | Err(_) => return done,
            Ok(n) => done += n,
        }
    }
    done
}

// One case from the input, and its line to the output. One byte more than the longest good case is read: what comes after it
// cannot matter.
fn answer<R: Read, W: Write>(input: &mut R, output: &mut W) -> io::Result<()>
    ensures { OnOk result (Answers (R.remaining input.old) (R.remaining input.new) (W.contents output.old) (W.contents output.new)) }
{
    let mut bytes = [0u8; Case::LONGEST + 1];
    let n = read_full(input, &mut bytes);
    let mut words = [0u64; BLOCKS * Block::WORDS];
    let mut line = [0u8; Case::LINE];
    let m = case_line::answer_line(&bytes[..n], &mut words, &mut line);
    output.write_all(&line[..m])
}

// Standard input is answered on standard output.
fn main(rt: HostRuntime) -> io::Result<()> {
    answer(&mut rt.stdin(), &mut rt.stdout())
}
