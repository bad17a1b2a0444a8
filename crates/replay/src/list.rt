// A packed list (oracle/pack): a count and so many cases, of numbers, 8 bytes little-endian, and of texts behind their counts.
// A case begins with its line in the recorded list.
ghost use Rattle.std.specs.Prelude.{◌≤◌, IfOk, length};

use params::Params;
use std::io::{Read, Write};
use std::rt::Files;
use std::{fs, io};

// The most bytes of a text.
pub(crate) const MOST: usize = 256;

// The numbers that a case of the hashes or of the jobs begins with, behind its line.
#[derive(Clone, Copy)]
pub(crate) struct Case {
    // The call, by its recorded number: hashes and jobs have calls of their own.
    pub(crate) kind: u64,
    pub(crate) params: Params,
    // The tag's length.
    pub(crate) length: u64,
    // How many words are lent, and the seed that makes them dirty.
    pub(crate) words: u64,
    pub(crate) seed: u64,
    // The number of the answer.
    pub(crate) answer: u64,
}

impl Case {
    // The next numbers.
    pub(crate) fn next<R: Read>(list: &mut R) -> Case {
        let kind = number(list);
        let params = Params {
            algorithm: low(number(list)),
            version: low(number(list)),
            memory: low(number(list)),
            passes: low(number(list)),
            lanes: low(number(list)),
            configured: configured(number(list)),
        };
        Case {
            kind,
            params,
            length: number(list),
            words: number(list),
            seed: number(list),
            answer: number(list),
        }
    }
}

// A configured length: 0 is absent, else it is one more.
fn configured(n: u64) -> Option<u32> {
    n.checked_sub(1).map(low)
}

// Reads until the bytes are full, the list ends or a read fails. No read_exact, which says nothing of bytes that it does not fill.
fn read_full<R: Read>(list: &mut R, bytes: &mut [u8]) {
    let mut done = 0;
    while done < bytes.len() {
        match list.read(&mut bytes[done..]) {
            Ok(0) | Err(_) => return,
            Ok(n) => done += n,
        }
    }
}

// The next number; behind the list's end its bytes are 0.
pub(crate) fn number<R: Read>(list: &mut R) -> u64 {
    let mut bytes = [0u8; 8];
    read_full(list, &mut bytes);
    u64::from_le_bytes(bytes)
}

// The next text, in a room of zeros; behind the list's end its bytes are 0.
pub(crate) fn next_text<'a, R: Read>(list: &mut R, room: &'a mut [u8; MOST]) -> &'a [u8]
    ensures { length result.now ≤ length room.old }
{
    let text = front(room, number(list));
    read_full(list, text);
    text
}

// Whether the next text is these bytes.
pub(crate) fn is_next<R: Read>(list: &mut R, bytes: &[u8]) -> bool {
    let mut room = [0u8; MOST];
    bytes == next_text(list, &mut room)
}

// As many elements as the number says, at most all of them.
pub(crate) fn front<T>(all: &mut [T], n: u64) -> &mut [T]
    ensures { length result.now ≤ length all.old }
{
    let count = all.len().min(n as usize);
    &mut all[..count]
}

// The low half of a number.
pub(crate) fn low(n: u64) -> u32 {
    word::low_half(n) as u32
}

// How many of so many cases agree with what is recorded; a line for each that does not.
fn agreeing<R: Read, W: Write, A: FnMut(&mut R) -> bool>(
    list: &mut R,
    out: &mut W,
    name: &str,
    recorded: u64,
    mut agrees: A,
) -> io::Result<u64>
    requires { A.IsAlwaysCallable agrees }
    ensures { IfOk result (λ n. n ≤ recorded) }
{
    let mut agree = 0;
    for _ in 0..recorded {
        let line = number(list);
        if agrees(list) {
            agree += 1;
        } else {
            writeln!(out, "{name} differs: line {line}")?;
        }
    }
    Ok(agree)
}

// All cases of a list; one that cannot be opened has none.
pub(crate) fn replay<F: Files, W: Write, A: FnMut(&mut F::File) -> bool>(
    rt: &F,
    out: &mut W,
    name: &str,
    agrees: A,
) -> io::Result<()>
    requires { A.IsAlwaysCallable agrees }
{
    let Ok(mut list) = fs::open(rt, name) else {
        return report(out, name, 0, 0);
    };
    let recorded = number(&mut list);
    let agree = agreeing(&mut list, out, name, recorded, agrees)?;
    report(out, name, recorded, agree)
}

// The line of a list.
fn report<W: Write>(out: &mut W, name: &str, recorded: u64, agree: u64) -> io::Result<()> {
    writeln!(out, "{name} {recorded} recorded, {agree} agree")
}
