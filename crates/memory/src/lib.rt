// The lent words: one block read and written, the blocks that each lane begins with, and the tag of what the lanes end with.

#![tactic(auto)]

ghost use Rattle.std.specs.Prelude.{◌≡◌, ◌<◌, length};
ghost use Rattle.params.specs.Limits.{segment};
ghost use Rattle.memory.specs.Lent.{Lent};
ghost use Rattle.memory.specs.Promises.{IsLentPromise, ReadBlockPromise, WriteBlockPromise, FirstBlocksPromise, WriteTagPromise};
ghost use Rattle.memory.specs.Start.{start_lane};
ghost use Rattle.memory.specs.Tag.{last_blocks};

use blake2b::Engine;
use blake2b_long::blake2b_long;
use block::Block;
use checks::{WORDS, too_little};
use initial::first_words;
use params::Params;
use position::{BlockNumber, LaneNumber};

// Words and parameters stay two arguments here: a struct that holds the words by `&mut` gives the calls through it no values (filling).

// Whether rows 1 to 8 accept the parameters and so many words hold all their blocks.
#[tactic(auto, using(std::proofs::lemmas::Bool::Decides::nat_tests), unfolding(crate::specs::Lent::lent))]
pub fn is_lent(params: Params, words: usize) -> bool
    ensures { IsLentPromise params words result }
{
    params.check().is_ok() && !too_little(WORDS, params, words)
}

// Block b of the words; zeros, and no Option, if they have no such block, as `ReadBlockPromise` says.
#[tactic(auto, unfolding(crate::specs::Memory::block))]
pub fn read_block(words: &[u64], b: usize) -> Block
    ensures { ReadBlockPromise words.now b result }
{
    if words.len() / Block::WORDS <= b {
        return Block::new();
    }
    let first = Block::WORDS * b;
    let mut read = [0; Block::WORDS];
    read.copy_from_slice(&words[first..first + Block::WORDS]);
    Block { words: read }
}

// The words of x for those of block b, and every other word stays; all stay if there is no such block.
#[tactic(auto, unfolding(crate::specs::Memory::put))]
pub fn write_block(words: &mut [u64], b: usize, x: Block)
    ensures { WriteBlockPromise words.old b x words.new }
{
    if b < words.len() / Block::WORDS {
        let first = Block::WORDS * b;
        words[first..first + Block::WORDS].copy_from_slice(&x.words);
    }
}

// Blocks 0 and 1 of a lane written; every other block stays.
#[tactic(auto, using(crate::proofs::Lent::there, crate::proofs::Lent::lane_long), unfolding(crate::specs::Start::start_lane))]
fn start_lane(words: &mut [u64], params: Params, h: [u8; Engine::MAX_OUTPUT], lane: LaneNumber)
    requires { Lent params (length words.old) × (lane.0 < params.lanes) }
    ensures { words.new ≡ start_lane h (segment params) lane.0 words.old }
{
    let q = params.lane_length();
    let first = BlockNumber(0);
    let second = BlockNumber(1);
    write_block(words, first.in_memory(lane, q), first_words(h, lane, first));
    write_block(
        words,
        second.in_memory(lane, q),
        first_words(h, lane, second),
    );
}

// Blocks 0 and 1 of every lane written, and every other block stays; all stay if the words are not lent for these parameters.
#[tactic(auto, using(crate::proofs::Lent::lent_fact, crate::proofs::StartMemory::start_zero, crate::proofs::StartMemory::start_more))]
pub fn first_blocks(words: &mut [u64], params: Params, h: [u8; Engine::MAX_OUTPUT])
    ensures { FirstBlocksPromise words.old params h words.new }
{
    if !is_lent(params, words.len()) {
        return;
    }
    for lane in 0..params.lanes {
        start_lane(words, params, h, LaneNumber(lane));
    }
}

// The XOR of every lane's last block.
#[tactic(auto, using(crate::proofs::LastBlocks::last_zero, crate::proofs::LastBlocks::last_more, crate::proofs::Lent::there, crate::proofs::Lent::lane_long))]
fn last_blocks(words: &[u64], params: Params) -> Block
    requires { Lent params (length words.now) }
    ensures { result.words ≡ last_blocks params.lanes (segment params) words.now }
{
    let q = params.lane_length();
    let last = BlockNumber(q - 1);
    let mut x = Block::new();
    for lane in 0..params.lanes {
        let b = last.in_memory(LaneNumber(lane), q);
        x = Block::xor(x, read_block(words, b));
    }
    x
}

// The tag of a filled memory: the variable-length hash of that XOR, as many bytes as out has. Out stays if the words are not lent for these
// parameters, or if no hash is so long.
#[tactic(auto, using(crate::proofs::Lent::lent_fact), unfolding(crate::specs::Tag::tag_of))]
pub fn write_tag(words: &[u64], params: Params, out: &mut [u8])
    ensures { WriteTagPromise words.now params out.old out.new }
{
    if !is_lent(params, words.len()) {
        return;
    }
    let bytes = last_blocks(words, params).to_bytes();
    let _ = blake2b_long(&bytes, out);
}
