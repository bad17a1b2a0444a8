// Lent memory as the recorded runs have it: what it holds before a call, by a rule, and a digest of what it holds after; and random words.

#![tactic(auto)]

ghost use Rattle.std.specs.Prelude.{◌≡◌};
ghost use Rattle.lent.specs.Lent.{mixed, drawn};
ghost use Rattle.lent.specs.Promises.{DirtyPromise, DirtyBytesPromise, DigestPromise, XorshiftPromise};

use blake2b::Engine;

// splitmix64's step and its two factors.
const STEP: u64 = 0x9e37_79b9_7f4a_7c15;

const FIRST: u64 = 0xbf58_476d_1ce4_e5b9;

const SECOND: u64 = 0x94d0_49bb_1331_11eb;

// The bytes of a digest.
pub const DIGEST: usize = 32;

// splitmix64's output at the state z.
#[tactic(auto, unfolding(crate::specs::Lent::mixed))]
fn mix(z: u64) -> u64
    ensures { result ≡ mixed z }
{
    let y = (z ^ (z >> 30)).wrapping_mul(FIRST);
    let x = (y ^ (y >> 27)).wrapping_mul(SECOND);
    x ^ (x >> 31)
}

// What lies at place i with this seed: splitmix64's output i, or 0 with seed 0.
#[tactic(auto, using(crate::proofs::Product::stepped), unfolding(crate::specs::Lent::drawn))]
fn draw(seed: u64, i: usize) -> u64
    ensures { result ≡ drawn seed i }
{
    if seed == 0 {
        return 0;
    }
    let steps = (i as u64).wrapping_add(1).wrapping_mul(STEP);
    mix(seed.wrapping_add(steps))
}

// The words become those of a seed.
#[tactic(auto, using(word::proofs::Table::is_table), unfolding(crate::specs::Lent::dirtied))]
pub fn dirty(seed: u64, words: &mut [u64])
    ensures { DirtyPromise seed words.old words.new }
{
    for (i, word) in words.iter_mut().enumerate() {
        *word = draw(seed, i);
    }
}

// The bytes become the low bytes of those words. A trait for both kinds of element would be longer than this second loop.
#[tactic(auto, using(word::proofs::Table::is_table), unfolding(crate::specs::Lent::dirtied_bytes))]
pub fn dirty_bytes(seed: u64, bytes: &mut [u8])
    ensures { DirtyBytesPromise seed bytes.old bytes.new }
{
    for (i, byte) in bytes.iter_mut().enumerate() {
        *byte = (draw(seed, i) % 256) as u8;
    }
}

// The variable-length hash, of 32 bytes, of all words, each little-endian.
pub fn digest(words: &[u64]) -> [u8; DIGEST]
    ensures { DigestPromise words.now result }
{
    let count = (DIGEST as u32).to_le_bytes();
    let mut s = Engine::begin(Engine::initial(DIGEST)).feed(&count);
    for word in words {
        s = s.feed(&word.to_le_bytes());
    }
    let hash = s.end();
    let mut digest = [0u8; DIGEST];
    digest.copy_from_slice(&hash[..DIGEST]);
    digest
}

// Marsaglia's xorshift of 64 bits, by 13, 7 and 17: the number after x.
#[tactic(auto, unfolding(crate::specs::Lent::xorshift))]
pub fn xorshift(x: u64) -> u64
    ensures { XorshiftPromise x result }
{
    let a = x ^ (x << 13);
    let b = a ^ (a >> 7);
    b ^ (b << 17)
}
