// BLAKE2b (RFC 7693), unkeyed: an engine that takes a message in pieces, without limits, and the hash of one slice.

#![tactic(auto)]

ghost use Rattle.std.specs.Prelude.{◌≡◌};
ghost use Rattle.blake2b.specs.Blake2b.{parameter};
ghost use Rattle.blake2b.specs.Promises.{InitialPromise, BeginPromise, FeedPromise, EndPromise, HashPromise};

use answer::{Refusal, check_length};
use blake2b_compression::{Compression, Count, compress};
use word::store_words;

// What was taken: the state, the bytes that no block was made of yet, and the count of the others. An array with how much of it is filled,
// where there could be a Vec: no library has a heap.
#[derive(Clone, Copy)]
pub struct Engine {
    h: [u64; Compression::STATE],
    buffer: [u8; Compression::BLOCK],
    filled: usize,
    count: Count,
}

impl Engine {
    // The most bytes of a hash.
    pub const MAX_OUTPUT: usize = 64;

    // Fanout and depth of a hash that is no tree, and bytes 2 and 3 of the parameter block, where they stand.
    const FANOUT: u64 = 1;

    const DEPTH: u64 = 1;

    const SEQUENTIAL: u64 = Engine::FANOUT * 0x1_0000 + Engine::DEPTH * 0x100_0000;

    // The first word of the parameter block: no key, an output of n bytes.
    #[tactic(auto, unfolding(crate::specs::Blake2b::parameter))]
    fn parameter(n: usize) -> u64
        ensures { result ≡ parameter n }
    {
        Self::SEQUENTIAL ^ (n as u64)
    }

    // The state before any block, for an output of n bytes.
    #[tactic(auto, unfolding(crate::specs::Blake2b::initial))]
    pub fn initial(n: usize) -> [u64; Compression::STATE]
        ensures { InitialPromise n result }
    {
        let mut h = Compression::IV;
        h[0] ^= Self::parameter(n);
        h
    }

    // Nothing taken yet, from the state h on.
    #[tactic(auto, unfolding(crate::specs::Stream::fresh))]
    pub fn begin(h: [u64; Compression::STATE]) -> Engine
        ensures { BeginPromise h result }
    {
        Engine {
            h,
            buffer: [0u8; Compression::BLOCK],
            filled: 0,
            count: Count { low: 0, high: 0 },
        }
    }

    // The engine after the bytes of a piece. The fields lie in locals over the loop: written in place, short pieces take a sixth longer.
    // `h = compress(..)` is two statements, since no proof covers a call's array that goes straight into a variable.
    pub fn feed(self, piece: &[u8]) -> Engine
        ensures { FeedPromise self piece.now result }
    {
        let Engine {
            mut h,
            mut buffer,
            mut filled,
            mut count,
        } = self;
        for byte in piece {
            if Compression::BLOCK <= filled {
                count = count.add(Compression::BLOCK as u64);
                let g = compress(h, buffer, count, false);
                h = g;
                buffer = [0u8; Compression::BLOCK];
                filled = 0;
            }
            buffer[filled] = *byte;
            filled += 1;
        }
        Engine {
            h,
            buffer,
            filled,
            count,
        }
    }

    // The 64 bytes of the hash of the bytes taken. An output of fewer bytes is their front.
    pub fn end(self) -> [u8; Engine::MAX_OUTPUT]
        ensures { EndPromise self result }
    {
        let count = self.count.add(self.filled as u64);
        let h = compress(self.h, self.buffer, count, true);
        let mut d = [0u8; Self::MAX_OUTPUT];
        store_words(&h, &mut d);
        d
    }
}

// The hash of the input, of as many bytes as out has: 1 to 64.
pub fn hash(input: &[u8], out: &mut [u8]) -> Result<(), Refusal>
    ensures { HashPromise input.now out.old result out.new }
{
    let n = out.len();
    check_length(1, Engine::MAX_OUTPUT, n)?;
    let d = Engine::begin(Engine::initial(n)).feed(input).end();
    out.copy_from_slice(&d[..n]);
    Ok(())
}
