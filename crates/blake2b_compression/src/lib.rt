// The compression function F of BLAKE2b (RFC 7693, 3.2), and the count of bytes that it takes.

#![tactic(auto)]

mod mixing;

ghost use Rattle.std.specs.Prelude.{◌≡◌, ◌+◌, ◌*◌, ◌^◌};
ghost use Rattle.blake2b_compression.specs.Compression.{flips, local, fold};
ghost use Rattle.blake2b_compression.specs.Promises.{CompressPromise, AddPromise};

use mixing::all_rounds;
use word::load_words;

// The tables and the sizes of the compression.
#[derive(Clone, Copy)]
pub struct Compression;

impl Compression {
    // Words in the state and in a block, bytes in a block, rounds, and rows of the schedule.
    pub const STATE: usize = 8;

    const WORDS: usize = 16;

    pub const BLOCK: usize = 128;

    const ROUNDS: usize = 12;

    const ROWS: usize = 10;

    pub const IV: [u64; Compression::STATE] = [
        0x6a09e667f3bcc908,
        0xbb67ae8584caa73b,
        0x3c6ef372fe94f82b,
        0xa54ff53a5f1d36f1,
        0x510e527fade682d1,
        0x9b05688c2b3e6c1f,
        0x1f83d9abfb41bd6b,
        0x5be0cd19137e2179,
    ];

    const SIGMA: [[u8; Compression::WORDS]; Compression::ROWS] = [
        [0, 1, 2, 3, 4, 5, 6, 7, 8, 9, 10, 11, 12, 13, 14, 15],
        [14, 10, 4, 8, 9, 15, 13, 6, 1, 12, 0, 2, 11, 7, 5, 3],
        [11, 8, 12, 0, 5, 2, 15, 13, 10, 14, 3, 6, 7, 1, 9, 4],
        [7, 9, 3, 1, 13, 12, 11, 14, 2, 6, 5, 10, 4, 0, 15, 8],
        [9, 0, 5, 7, 2, 4, 10, 15, 14, 1, 11, 12, 6, 8, 3, 13],
        [2, 12, 6, 10, 0, 11, 8, 3, 4, 13, 7, 5, 15, 14, 1, 9],
        [12, 5, 1, 15, 14, 13, 4, 10, 0, 7, 6, 3, 9, 2, 8, 11],
        [13, 11, 7, 14, 12, 1, 3, 9, 5, 0, 15, 4, 8, 6, 2, 10],
        [6, 15, 14, 9, 11, 3, 0, 8, 12, 2, 13, 7, 1, 4, 10, 5],
        [10, 2, 8, 4, 7, 6, 1, 5, 15, 11, 9, 14, 3, 12, 13, 0],
    ];
}

// A count of bytes, of 128 bits.
#[derive(Clone, Copy)]
pub struct Count {
    pub low: u64,
    pub high: u64,
}

impl Count {
    // The count with n more bytes.
    pub fn add(self, n: u64) -> Count
        ensures { AddPromise self n result }
    {
        let (low, carry) = self.low.overflowing_add(n);
        Count {
            low,
            high: self.high.wrapping_add(u64::from(carry)),
        }
    }
}

// What word 14 is flipped by: all bits in the last block, else none.
#[tactic(auto, unfolding(crate::specs::Compression::flips))]
fn flips_of(last: bool) -> u64
    ensures { result ≡ flips last }
{
    if last { u64::MAX } else { 0 }
}

// The local vector: the state and the IV, with the count and the mark of the last block.
fn vector(
    h: [u64; Compression::STATE],
    low: u64,
    high: u64,
    last: bool,
) -> [u64; Compression::WORDS]
    ensures { result ≡ local h (low + high * 2 ^ 64) last }
{
    let f = flips_of(last);
    [
        h[0],
        h[1],
        h[2],
        h[3],
        h[4],
        h[5],
        h[6],
        h[7],
        Compression::IV[0],
        Compression::IV[1],
        Compression::IV[2],
        Compression::IV[3],
        Compression::IV[4] ^ low,
        Compression::IV[5] ^ high,
        Compression::IV[6] ^ f,
        Compression::IV[7],
    ]
}

// The state with the two halves of the local vector.
fn folded(h: [u64; Compression::STATE], v: [u64; Compression::WORDS]) -> [u64; Compression::STATE]
    ensures { result ≡ fold h v }
{
    std::array::from_fn(|i| h[i] ^ v[i] ^ v[i + Compression::STATE])
}

// The state h after a block, with the count of bytes up to the block's end and the mark of the last block.
#[tactic(auto, unfolding(crate::specs::Compression::F))]
pub fn compress(
    h: [u64; Compression::STATE],
    block: [u8; Compression::BLOCK],
    count: Count,
    last: bool,
) -> [u64; Compression::STATE]
    ensures { CompressPromise h block count.low count.high last result }
{
    let mut m = [0u64; Compression::WORDS];
    load_words(&block, &mut m);
    let v = vector(h, count.low, count.high, last);
    let w = all_rounds(v, m);
    folded(h, w)
}
