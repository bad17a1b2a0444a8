// The variable-length hash H' (RFC 9106, 3.3).

#![tactic(auto)]

ghost use Rattle.std.specs.Prelude.{◌≡◌, ◌+◌, ◌≤◌, min, length};
ghost use Rattle.std.proofs.Math.Seq.{paste};
ghost use Rattle.blake2b.specs.Blake2b.{max_output, initial};
ghost use Rattle.blake2b.specs.Stream.{fresh};
ghost use Rattle.blake2b_long.specs.Promises.{LongPromise};

use answer::{Refusal, check_length};
use blake2b::Engine;
use word::MAX_LENGTH;

// The bytes of a piece that is not the last: half of a hash.
const HALF_HASH: usize = Engine::MAX_OUTPUT / 2;

// An engine for the hash that the next piece comes from, where n bytes are left.
fn begin(n: usize) -> Engine
    ensures { result ≡ fresh (initial (min n max_output)) }
{
    Engine::begin(Engine::initial(n.min(Engine::MAX_OUTPUT)))
}

// The first n bytes of v go to out, from at on.
fn put(v: [u8; Engine::MAX_OUTPUT], n: usize, out: &mut [u8], at: usize)
    requires { (n ≤ max_output) × (at + n ≤ length out.old) }
    ensures { out.new ≡ paste out.old at v n }
{
    out[at..at + n].copy_from_slice(&v[..n]);
}

// The hash of the input, of as many bytes as out has: 1 to 2^32 - 1.
pub fn blake2b_long(input: &[u8], out: &mut [u8]) -> Result<(), Refusal>
    ensures { LongPromise input.now out.old result out.new }
{
    let n = out.len();
    check_length(1, MAX_LENGTH, n)?;
    let count = (n as u32).to_le_bytes();
    let mut s = begin(n).feed(&count).feed(input);
    let mut at = 0;
    // No `for`: the last piece begins where the loop ends.
    while Engine::MAX_OUTPUT < n - at {
        let v = s.end();
        put(v, HALF_HASH, out, at);
        at += HALF_HASH;
        s = begin(n - at).feed(&v);
    }
    put(s.end(), n - at, out, at);
    Ok(())
}
