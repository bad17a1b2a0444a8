// Argon2's block and its compression (RFC 9106, sections 3.5 and 3.6).

#![tactic(auto)]

mod registers;

ghost use Rattle.std.specs.Prelude.{◌≡◌, [], ◌∷◌};
ghost use Rattle.block.specs.Block as spec;
ghost use Rattle.block.specs.Line.{Cut, Permuted};
ghost use Rattle.block.specs.Promises.{PermutePromise, NewPromise, FromBytesPromise, ToBytesPromise, XorPromise, CompressPromise};

use registers::Line;
use word::{WORD, load_words, low_half, store_words};

// A block of memory, as words.
#[derive(Clone, Copy)]
pub struct Block {
    pub words: [u64; Block::WORDS],
}

// The sum of two words and of twice the product of their low halves; each sum wraps at 64 bits.
#[tactic(auto, using(crate::proofs::Mixing::mixed))]
fn multiply_add(a: u64, b: u64) -> u64
    ensures { result ≡ spec.multiply_add a b }
{
    let product = low_half(a) * low_half(b);
    let doubled = product.wrapping_add(product);
    a.wrapping_add(b).wrapping_add(doubled)
}

// The four words of a quarter step.
#[derive(Clone, Copy)]
struct Four {
    a: u64,
    b: u64,
    c: u64,
    d: u64,
}

// The quarter step: four words after it.
fn quarter(a: u64, b: u64, c: u64, d: u64) -> Four
    ensures { result.a ∷ result.b ∷ result.c ∷ result.d ∷ [] ≡ spec.quarter a b c d }
{
    let a1 = multiply_add(a, b);
    let d1 = (d ^ a1).rotate_right(32);
    let c1 = multiply_add(c, d1);
    let b1 = (b ^ c1).rotate_right(24);
    let a2 = multiply_add(a1, b1);
    let d2 = (d1 ^ a2).rotate_right(16);
    let c2 = multiply_add(c1, d2);
    let b2 = (b1 ^ c2).rotate_right(63);
    Four {
        a: a2,
        b: b2,
        c: c2,
        d: d2,
    }
}

// The permutation P of sixteen words, four rows of four: a quarter step on each column, then on each diagonal.
pub fn permute(words: [u64; Block::ROW]) -> [u64; Block::ROW]
    ensures { PermutePromise words result }
{
    let c0 = quarter(words[0], words[4], words[8], words[12]);
    let c1 = quarter(words[1], words[5], words[9], words[13]);
    let c2 = quarter(words[2], words[6], words[10], words[14]);
    let c3 = quarter(words[3], words[7], words[11], words[15]);
    let d0 = quarter(c0.a, c1.b, c2.c, c3.d);
    let d1 = quarter(c1.a, c2.b, c3.c, c0.d);
    let d2 = quarter(c2.a, c3.b, c0.c, c1.d);
    let d3 = quarter(c3.a, c0.b, c1.c, c2.d);
    [
        d0.a, d1.a, d2.a, d3.a, d3.b, d0.b, d1.b, d2.b, d2.c, d3.c, d0.c, d1.c, d1.d, d2.d, d3.d,
        d0.d,
    ]
}

// The permutation on every line: line i begins at register between * i.
fn lines(q: Block, between: usize, step: usize) -> Block
    requires { Cut between step }
    ensures { Permuted between step spec.side q.words result.words }
{
    let mut z = [0; Block::WORDS];
    for i in 0..Block::SIDE {
        let line = Line {
            first: between * i,
            step,
        };
        let v = permute(line.read(&q.words));
        line.lay(&mut z, v);
    }
    Block { words: z }
}

// The permutation on every row.
fn rows(q: Block) -> Block
    ensures { result.words ≡ spec.rows q.words }
{
    lines(q, Block::SIDE, 1)
}

// The permutation on every column.
fn columns(q: Block) -> Block
    ensures { result.words ≡ spec.columns q.words }
{
    lines(q, 1, Block::SIDE)
}

impl Block {
    // The bytes of a block.
    pub const SIZE: usize = 1024;

    // Its words.
    pub const WORDS: usize = Block::SIZE / WORD;

    // The words of a register.
    pub const REGISTER: usize = 2;

    // The rows, and the columns, of registers in a block; a row's registers, and a column's.
    pub const SIDE: usize = 8;

    // The words of a row, and of a column.
    pub const ROW: usize = Block::SIDE * Block::REGISTER;

    // The block of zeros.
    #[tactic(auto, unfolding(word::specs::Table::table))]
    pub fn new() -> Block
        ensures { NewPromise result }
    {
        Block {
            words: [0; Block::WORDS],
        }
    }

    // The block of some bytes, whose words are little-endian; no From, which would not say so, as std's `from_le_bytes` is none.
    pub fn from_bytes(bytes: [u8; Block::SIZE]) -> Block
        ensures { FromBytesPromise bytes result }
    {
        let mut read = [0; Block::WORDS];
        load_words(&bytes, &mut read);
        Block { words: read }
    }

    // The bytes of a block.
    pub fn to_bytes(self) -> [u8; Block::SIZE]
        ensures { ToBytesPromise self result }
    {
        let mut written = [0; Block::SIZE];
        store_words(&self.words, &mut written);
        written
    }

    // Two blocks, XORed word by word.
    pub fn xor(x: Block, y: Block) -> Block
        ensures { XorPromise x y result }
    {
        Block {
            words: std::array::from_fn(|k| x.words[k] ^ y.words[k]),
        }
    }

    // The compression G of two blocks: the permutation on the rows of their XOR, then on the columns, XORed with it.
    #[tactic(auto, unfolding(crate::specs::Block::compress))]
    pub fn compress(x: Block, y: Block) -> Block
        ensures { CompressPromise x y result }
    {
        let r = Block::xor(x, y);
        let q = rows(r);
        let z = columns(q);
        Block::xor(z, r)
    }
}
