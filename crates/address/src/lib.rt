// Document 01's address blocks: which segments take their random words from them, and which word is whose.

#![tactic(auto)]

ghost use Rattle.address.specs.Promises.{AddressedPromise, AddressBlockPromise, AddressCounterPromise, AddressWordPromise};

use block::Block;
use params::Params;
use position::Segment;

// Argon2id takes its random words from address blocks in so many slices, of pass 0.
const ADDRESSED_SLICES: u32 = 2;

// Whether a segment's random words come from address blocks: Argon2i always, Argon2id in pass 0, slices 0 and 1.
pub fn is_addressed(params: Params, pass: u32, slice: u32) -> bool
    ensures { AddressedPromise params pass slice result }
{
    params.algorithm == Params::I
        || params.algorithm == Params::ID && pass == 0 && slice < ADDRESSED_SLICES
}

// The address block with this counter: the compression, twice with a zero block, of the segment's numbers.
#[tactic(auto, using(crate::proofs::Beginning::zeros_beginning), unfolding(crate::specs::Address::address_block))]
pub fn address_block(params: Params, segment: Segment, counter: u32) -> Block
    ensures { AddressBlockPromise params segment.pass segment.slice segment.lane counter result }
{
    let mut input = [0; Block::WORDS];
    input[0] = segment.pass as u64;
    input[1] = segment.lane.0 as u64;
    input[2] = segment.slice as u64;
    input[3] = params.block_count() as u64;
    input[4] = params.passes as u64;
    input[5] = params.algorithm as u64;
    input[6] = counter as u64;
    let once = Block::compress(Block::new(), Block { words: input });
    Block::compress(Block::new(), once)
}

// The counter of the address block that a block takes its word from: one address block is for as many blocks as it has words.
pub fn address_counter(block: u32) -> u32
    ensures { AddressCounterPromise block result }
{
    block / Block::WORDS as u32 + 1
}

// The word of its address block that a block takes.
pub fn address_word(addresses: &[u64; Block::WORDS], block: u32) -> u64
    ensures { AddressWordPromise addresses.now block result }
{
    let at = block as usize % Block::WORDS;
    addresses[at]
}
