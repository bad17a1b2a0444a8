// Compressions of blocks that a rule makes (oracle/blocks has the same rules in Rust).
use block::Block;
use lent::xorshift;
use std::io;
use std::io::Write;

// How many pairs are drawn.
const PAIRS: u32 = 4;

// How many compressions the chain has.
const CHAIN: u32 = 1000;

// The generator's first state.
const SEED: u64 = 88_172_645_463_325_252;

// The block of the next words that are drawn.
fn draw(state: &mut u64) -> Block {
    let mut block = Block::new();
    for word in &mut block.words {
        *state = xorshift(*state);
        *word = *state;
    }
    block
}

// The block of the words first, first + 1, ..
fn counting(first: u64) -> Block {
    let mut block = Block::new();
    for (k, word) in block.words.iter_mut().enumerate() {
        *word = first.wrapping_add(k as u64);
    }
    block
}

// One line: what it is, and the block.
fn print<W: Write>(out: &mut W, name: &str, b: Block) -> io::Result<()> {
    let mut text = [0u8; 2 * Block::SIZE];
    let count = hex_text::write(&b.to_bytes(), &mut text);
    out.write_all(name.as_bytes())?;
    out.write_all(&text[..count])?;
    out.write_all(b"\n")
}

// The last block of a chain, in which each is the compression of the two before it.
fn chain(mut x: Block, mut y: Block) -> Block {
    for _ in 0..CHAIN {
        (x, y) = (y, Block::compress(x, y));
    }
    y
}

// All lines.
pub(crate) fn replay<W: Write>(out: &mut W) -> io::Result<()> {
    let zeros = Block::new();
    let ones = Block {
        words: [u64::MAX; Block::WORDS],
    };
    print(out, "compress zeros  ", Block::compress(zeros, zeros))?;
    print(
        out,
        "compress counting  ",
        Block::compress(counting(0), counting(1)),
    )?;
    print(out, "compress ones  ", Block::compress(ones, zeros))?;
    let mut state = SEED;
    for _ in 0..PAIRS {
        let x = draw(&mut state);
        let y = draw(&mut state);
        print(out, "compress random  ", Block::compress(x, y))?;
    }
    let x = draw(&mut state);
    let y = draw(&mut state);
    print(out, "chain  ", chain(x, y))
}
