// Prints BLAKE2b and variable-length hashes of counting bytes, and RFC 7693's appendix A, in lower-case hex.
// The file stdout has what another implementation gives (oracle/vectors.py).

#![tactic(auto)]

mod argon;

use answer::Refusal;
use blake2b::hash;
use blake2b_long::blake2b_long;
use hex_text::digits;
use std::io;
use std::io::Write;

// The lengths of the messages, of the hashes, and of the variable-length hashes.
const SIZES: [usize; 8] = [0, 1, 127, 128, 129, 255, 256, 1000];

const OUTPUTS: [usize; 6] = [1, 20, 32, 48, 63, 64];

const LONG_OUTPUTS: [usize; 16] = [
    1, 31, 32, 33, 63, 64, 65, 66, 95, 96, 97, 98, 127, 128, 129, 1024,
];

const LONG_SIZE: usize = 72;

// Bytes as digits.
pub(crate) fn write_bytes<W: Write>(to: &mut W, bytes: &[u8]) -> io::Result<()> {
    for byte in bytes {
        to.write_all(&digits(*byte))?;
    }
    Ok(())
}

// Bytes as digits, and the line's end.
pub(crate) fn write_hex<W: Write>(to: &mut W, bytes: &[u8]) -> io::Result<()> {
    write_bytes(to, bytes)?;
    to.write_all(b"\n")
}

// The hashes of one message, one line for each length that there is room for.
fn outputs<W: Write, H: Fn(&[u8], &mut [u8]) -> Result<(), Refusal>>(
    to: &mut W,
    name: &str,
    hash: H,
    message: &[u8],
    lengths: &[usize],
) -> io::Result<()>
    requires { H.IsAlwaysCallable hash }
{
    let mut room = [0u8; 1024];
    for n in lengths {
        if let Some(out) = room.get_mut(..*n) {
            let _ = hash(message, out);
            write!(to, "{name} {} {n} ", message.len())?;
            write_hex(to, out)?;
        }
    }
    Ok(())
}

// The first n bytes; all where there are not as many.
fn front(bytes: &[u8], n: usize) -> &[u8] {
    &bytes[..n.min(bytes.len())]
}

// RFC 7693, appendix A.
fn appendix_a<W: Write>(to: &mut W) -> io::Result<()> {
    let mut out = [0u8; 64];
    let _ = hash(b"abc", &mut out);
    to.write_all(b"abc ")?;
    write_hex(to, &out)
}

fn main(rt: HostRuntime) -> io::Result<()> {
    let mut to = rt.stdout();
    appendix_a(&mut to)?;
    let bytes: [u8; 1000] = std::array::from_fn(|i| (i % 256) as u8);
    for n in SIZES {
        outputs(&mut to, "blake2b", hash, front(&bytes, n), &OUTPUTS)?;
    }
    outputs(
        &mut to,
        "blake2b_long",
        blake2b_long,
        front(&bytes, LONG_SIZE),
        &LONG_OUTPUTS,
    )?;
    argon::lines(&mut to)
}
