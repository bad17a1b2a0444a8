// The initial hash (RFC 9106, 3.2), and the words of the blocks that each lane begins with.

#![tactic(auto)]

ghost use Rattle.std.specs.Prelude.{◌++◌, ◌≡◌};
ghost use Rattle.blake2b.specs.Stream.{feed_all};
ghost use Rattle.initial.specs.Initial.{le32, counted, header};
ghost use Rattle.initial.specs.Promises.{InitialHashPromise, FirstWordsPromise};

use blake2b::Engine;
use blake2b_long::blake2b_long;
use block::Block;
use params::{Inputs, Params};
use position::{BlockNumber, LaneNumber};

// The bytes of a number.
const NUMBER: usize = 4;

// The bytes that a first block is hashed from.
const FIRST_INPUT: usize = Engine::MAX_OUTPUT + 2 * NUMBER;

// The state after a number, 4 bytes little-endian.
#[tactic(auto, using(word::proofs::Library::to_le_bytes_4))]
fn feed_number(state: Engine, n: u32) -> Engine
    ensures { result ≡ feed_all state (le32 n) }
{
    state.feed(&n.to_le_bytes())
}

// The state after a count, of which 4 bytes are kept.
#[tactic(auto, using(word::proofs::Library::to_le_bytes_8))]
fn feed_count(state: Engine, n: usize) -> Engine
    ensures { result ≡ feed_all state (le32 n) }
{
    state.feed(&n.to_le_bytes()[..NUMBER])
}

// The state after the count of some bytes, and the bytes.
fn feed_counted(state: Engine, bytes: &[u8]) -> Engine
    ensures { result ≡ feed_all state (counted bytes.now) }
{
    feed_count(state, bytes.len()).feed(bytes)
}

// The state after the numbers: lanes, tag length, memory cost, passes, version, algorithm.
fn feed_header(state: Engine, params: Params, tag: usize) -> Engine
    ensures { result ≡ feed_all state (header params tag) }
{
    let s = feed_number(state, params.lanes);
    let s = feed_count(s, tag);
    let s = feed_number(s, params.memory);
    let s = feed_number(s, params.passes);
    let s = feed_number(s, params.version);
    feed_number(s, params.algorithm)
}

// The initial hash: the numbers, then count and bytes of each input.
pub fn initial_hash(params: Params, tag: usize, inputs: Inputs) -> [u8; Engine::MAX_OUTPUT]
    ensures { InitialHashPromise params tag inputs.entry.password.now inputs.entry.salt.now inputs.entry.secret.now inputs.entry.ad.now result }
{
    let s = Engine::begin(Engine::initial(Engine::MAX_OUTPUT));
    let s = feed_header(s, params, tag);
    let s = feed_counted(s, inputs.password);
    let s = feed_counted(s, inputs.salt);
    let s = feed_counted(s, inputs.secret);
    let s = feed_counted(s, inputs.ad);
    s.end()
}

// What a first block is hashed from: the initial hash, the block's number and the lane's.
fn first_input(
    h: [u8; Engine::MAX_OUTPUT],
    lane: LaneNumber,
    block: BlockNumber,
) -> [u8; FIRST_INPUT]
    ensures { result ≡ h ++ le32 block.0 ++ le32 lane.0 }
{
    let mut input = [0; FIRST_INPUT];
    let (hash, numbers) = input.split_at_mut(Engine::MAX_OUTPUT);
    let (of_block, of_lane) = numbers.split_at_mut(NUMBER);
    hash.copy_from_slice(&h);
    of_block.copy_from_slice(&block.0.to_le_bytes());
    of_lane.copy_from_slice(&lane.0.to_le_bytes());
    input
}

// A first block of a lane: the variable-length hash of that, as words.
#[tactic(auto, unfolding(crate::specs::Initial::first_words))]
pub fn first_words(h: [u8; Engine::MAX_OUTPUT], lane: LaneNumber, block: BlockNumber) -> Block
    ensures { FirstWordsPromise h lane block result }
{
    let input = first_input(h, lane, block);
    let mut bytes = [0; Block::SIZE];
    // No refusal comes: the length is that of a block.
    let _ = blake2b_long(&input, &mut bytes);
    Block::from_bytes(bytes)
}
