// Document 01's rules of filling: one block, some of a segment, and all of them in the order of RFC 9106.

#![tactic(auto)]

ghost use Rattle.std.specs.Prelude.{true, false, ◌≡◌, ◌<◌, get_or, length};
ghost use Rattle.params.specs.Limits.{slices, segment};
ghost use Rattle.address.specs.Address.{address_block, address_counter, addressed_word};
ghost use Rattle.memory.specs.Lent.{Has, Lent};
ghost use Rattle.memory.specs.Memory as memory;
ghost use Rattle.filling.specs.Filling as spec;
ghost use Rattle.filling.specs.Inner.{Part, Fillable};
ghost use Rattle.filling.specs.Promises.{FillBlocksPromise, FillAllPromise};

use address::{address_block, address_counter, address_word, is_addressed};
use block::Block;
use memory::{is_lent, read_block, write_block};
use params::Params;
use position::{
    LaneNumber, Reference, Segment, column, first_block, index, previous_column, reference_position,
};
use std::ops::Range;

// The words and their parameters are passed side by side: in a struct over the lent words each method had to promise, beside what it writes,
// that it keeps the reference and the parameters.

// Word 0 of the previous block.
fn previous_word(words: &[u64], params: Params, segment: Segment, block: u32) -> u64
    requires { Fillable params segment.pass segment.slice segment.lane.0 block (length words.now) }
    ensures { result ≡ get_or (memory.block (spec.previous_index params segment.slice segment.lane.0 block) words.now) 0 0 }
{
    let previous = index(
        params,
        segment.lane,
        previous_column(params, segment.slice, block),
    );
    words[Block::WORDS * previous]
}

// The address block of a segment that was made last, and its counter.
#[derive(Drop)]
struct Addresses {
    params: Params,
    segment: Segment,
    counter: u32,
    block: Block,
    ghost made: { block.words ≡ address_block params segment.pass segment.slice segment.lane.0 counter },
}

impl Addresses {
    // The address block that a block takes its word from, be it block 0, block 2 or any other.
    fn of(params: Params, segment: Segment, block: u32) -> Addresses
        ensures { (result.params ≡ params)
            × (result.segment ≡ segment)
            × (result.counter ≡ address_counter block) }
    {
        let counter = address_counter(block);
        Addresses {
            params,
            segment,
            counter,
            block: address_block(params, segment, counter),
        }
    }

    // The random word of a block. An address block is made when the counter changes.
    #[tactic(auto, unfolding(address::specs::Address::addressed_word))]
    fn word(&mut self, block: u32) -> u64
        ensures word { result ≡ addressed_word self.old.params self.old.segment.pass self.old.segment.slice self.old.segment.lane.0 block }
        ensures same { (self.new.params ≡ self.old.params) × (self.new.segment ≡ self.old.segment) }
    {
        let counter = address_counter(block);
        if self.counter != counter {
            *self = Addresses::of(self.params, self.segment, block);
        }
        address_word(&self.block.words, block)
    }
}

// Stores a new block: pass 0 or version 16 overwrites; otherwise XOR with what stood there.
fn store(words: &mut [u64], params: Params, pass: u32, at: usize, new: Block)
    requires { Has (length words.old) at }
    ensures { words.new
        ≡ memory.put at (spec.stored params pass (memory.block at words.old) new.words) words.old }
{
    if pass == 0 || params.version == Params::V0X10 {
        write_block(words, at, new);
        return;
    }
    let old = read_block(words, at);
    write_block(words, at, Block::xor(old, new));
}

// Fills a block whose random word is given: the compression of the previous block and the reference block is stored.
fn fill_with(words: &mut [u64], params: Params, segment: Segment, block: u32, word: u64)
    requires { Fillable params segment.pass segment.slice segment.lane.0 block (length words.old)
        × (word ≡ spec.word_for params segment.pass segment.slice segment.lane.0 block words.old) }
    ensures { words.new ≡ spec.fill params segment.pass segment.slice segment.lane.0 block words.old }
{
    let before = index(
        params,
        segment.lane,
        previous_column(params, segment.slice, block),
    );
    let previous = read_block(words, before);
    let to = reference_position(
        params.lanes,
        params.memory,
        params.passes,
        segment,
        block,
        word,
    )
    .unwrap_or(Reference::zeros());
    let reference = read_block(words, index(params, to.lane, to.block));
    let new = Block::compress(previous, reference);
    let at = index(params, segment.lane, column(params, segment.slice, block));
    store(words, params, segment.pass, at, new);
}

// Fills blocks of a lane's segment, whose random words come from address blocks, or else from the blocks before.
fn fill_some(words: &mut [u64], params: Params, segment: Segment, blocks: Range<u32>)
    requires { Part params segment.pass segment.slice segment.lane.0 blocks.start blocks.end (length words.old) }
    ensures { words.new ≡ spec.fill_blocks params segment.pass segment.slice segment.lane.0 blocks.start blocks.end words.old }
{
    let mut addresses = if is_addressed(params, segment.pass, segment.slice) {
        Some(Addresses::of(params, segment, blocks.start))
    } else {
        None
    };
    for block in blocks.start..blocks.end {
        let word = match &mut addresses {
            Some(made) => made.word(block),
            None => previous_word(words, params, segment, block),
        };
        fill_with(words, params, segment, block, word);
    }
}

// The same; where there is no block, no address block is made.
fn fill_part(words: &mut [u64], params: Params, segment: Segment, blocks: Range<u32>)
    requires { Part params segment.pass segment.slice segment.lane.0 blocks.start blocks.end (length words.old) }
    ensures { words.new ≡ spec.fill_blocks params segment.pass segment.slice segment.lane.0 blocks.start blocks.end words.old }
{
    if blocks.start < blocks.end {
        fill_some(words, params, segment, blocks);
    }
}

// Whether there is such a segment, and these are blocks of it that are filled.
fn in_segment(params: Params, segment: Segment, from: u32, to: u32) -> bool
    ensures { result ≡ spec.in_segment params segment.pass segment.slice segment.lane.0 from to }
{
    segment.pass < params.passes
        && segment.slice < Params::SYNC_POINTS
        && segment.lane.0 < params.lanes
        && first_block(segment.pass, segment.slice) <= from
        && to <= params.segment_length()
}

// Fills some blocks of a lane's segment. All words stay if they are not lent for these parameters, or if these are no blocks of a segment
// that are filled.
pub fn fill_blocks(words: &mut [u64], params: Params, segment: Segment, blocks: Range<u32>)
    ensures { FillBlocksPromise words.old params segment.pass segment.slice segment.lane.0 blocks.start blocks.end words.new }
{
    if is_lent(params, words.len()) && in_segment(params, segment, blocks.start, blocks.end) {
        fill_part(words, params, segment, blocks);
    }
}

// Fills a slice: the segment of every lane.
#[tactic(auto, using(memory::proofs::Loop::leads_zero, memory::proofs::Loop::leads_next, memory::proofs::Loop::leads_last), unfolding(crate::specs::Filling::fill_segment, crate::specs::Filling::fill_slice))]
fn fill_slice(words: &mut [u64], params: Params, pass: u32, slice: u32)
    requires { Lent params (length words.old) × (pass < params.passes) × (slice < slices) }
    ensures { words.new ≡ spec.fill_slice params pass slice words.old }
{
    for lane in 0..params.lanes {
        let segment = Segment {
            pass,
            slice,
            lane: LaneNumber(lane),
        };
        let blocks = first_block(pass, slice)..params.segment_length();
        fill_part(words, params, segment, blocks);
    }
}

// Fills a pass: every slice.
#[tactic(auto, using(memory::proofs::Loop::leads_zero, memory::proofs::Loop::leads_next, memory::proofs::Loop::leads_last), unfolding(crate::specs::Filling::fill_pass))]
fn fill_pass(words: &mut [u64], params: Params, pass: u32)
    requires { Lent params (length words.old) × (pass < params.passes) }
    ensures { words.new ≡ spec.fill_pass params pass words.old }
{
    for slice in 0..Params::SYNC_POINTS {
        fill_slice(words, params, pass, slice);
    }
}

// Fills all: every pass. All words stay if they are not lent for these parameters.
#[tactic(auto, using(memory::proofs::Lent::lent_fact, memory::proofs::Loop::leads_zero, memory::proofs::Loop::leads_next, memory::proofs::Loop::leads_last), unfolding(crate::specs::Filling::fill_all))]
pub fn fill_all(words: &mut [u64], params: Params)
    ensures { FillAllPromise words.old params words.new }
{
    if !is_lent(params, words.len()) {
        return;
    }
    for pass in 0..params.passes {
        fill_pass(words, params, pass);
    }
}
