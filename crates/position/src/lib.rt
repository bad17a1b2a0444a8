// Where a block lies, and which block it refers to: document 01's reference position.

#![tactic(auto)]

ghost use Rattle.std.specs.Prelude.{◌≡◌, ◌+◌, ◌-◌, ◌*◌, ◌%◌, ◌≤◌, ◌<◌};
ghost use Rattle.params.specs.Limits.{slices, max_memory};
ghost use Rattle.position.specs.Position as spec;
ghost use Rattle.position.specs.Promises.{FirstBlockPromise, InMemoryPromise, ColumnPromise, PreviousColumnPromise, IndexPromise, NoReferencePromise, ReferencePromise};

use answer::Refusal;
use params::Params;
use word::{HALF, high_half, low_half};

// A lane's number.
#[derive(Clone, Copy, PartialEq, Eq)]
pub struct LaneNumber(pub u32);

// A block's number within its lane: its column.
#[derive(Clone, Copy)]
pub struct BlockNumber(pub u32);

impl BlockNumber {
    // The block's number in memory, where a lane has length blocks: lane times lane length plus column.
    pub fn in_memory(self, lane: LaneNumber, length: u32) -> usize
        ensures { InMemoryPromise length lane self result }
    {
        lane.0 as usize * length as usize + self.0 as usize
    }
}

// A segment of the memory: a lane's part of one slice of a pass.
#[derive(Clone, Copy)]
pub struct Segment {
    pub pass: u32,
    pub slice: u32,
    pub lane: LaneNumber,
}

// A reference position: a lane, and the block within it.
#[derive(Clone, Copy)]
pub struct Reference {
    pub lane: LaneNumber,
    pub block: BlockNumber,
}

impl Reference {
    // What stands for the position that a refusal does not give.
    pub fn zeros() -> Reference
        ensures { NoReferencePromise result }
    {
        Reference {
            lane: LaneNumber(0),
            block: BlockNumber(0),
        }
    }
}

// The first block of a segment that a step fills: 2 in pass 0, slice 0, else 0.
pub fn first_block(pass: u32, slice: u32) -> u32
    ensures { FirstBlockPromise pass slice result }
{
    if pass == 0 && slice == 0 { 2 } else { 0 }
}

// Whether a lane with segments of this length has this block of this slice.
fn in_lane(segment: u32, slice: u32, block: u32) -> bool
    ensures { result ≡ spec.in_lane segment slice block }
{
    slice < Params::SYNC_POINTS && block < segment
}

// A slice and a block of it are two arguments here and below: callers count both, and would make a type of them for each call.

// The column of a block of a slice; 0, and no Option, where a lane has no such block, as `ColumnPromise` says.
#[tactic(auto, using(params::proofs::Sizes::lane_le, crate::proofs::Columns::in_lane_facts, crate::proofs::Lane::slice_le, std::proofs::lemmas::Bool::Decides::nat_tests))]
pub fn column(params: Params, slice: u32, block: u32) -> BlockNumber
    ensures { ColumnPromise params slice block result }
{
    let segment = params.segment_length();
    if in_lane(segment, slice, block) {
        return BlockNumber(slice * segment + block);
    }
    BlockNumber(0)
}

// The column of the block before; before a lane's first block, in a later pass, stands its last. 0, and no Option, where a
// lane has no such block, as `PreviousColumnPromise` says.
#[tactic(auto, using(crate::proofs::Columns::in_lane_facts, std::proofs::lemmas::Bool::Decides::nat_tests), unfolding(crate::specs::Position::previous_column))]
pub fn previous_column(params: Params, slice: u32, block: u32) -> BlockNumber
    ensures { PreviousColumnPromise params slice block result }
{
    if !in_lane(params.segment_length(), slice, block) {
        return BlockNumber(0);
    }
    let at = column(params, slice, block).0;
    if at == 0 {
        return BlockNumber(params.lane_length() - 1);
    }
    BlockNumber(at - 1)
}

// The number in memory of a lane's block at a column.
pub fn index(params: Params, lane: LaneNumber, column: BlockNumber) -> usize
    ensures { IndexPromise params lane column result }
{
    column.in_memory(lane, params.lane_length())
}

// Whether a block of a segment is one that a step fills, where segments have so many blocks.
#[tactic(auto, using(std::proofs::lemmas::Bool::Decides::nat_tests), unfolding(crate::specs::Position::fills))]
fn fills(lanes: u32, length: u32, passes: u32, segment: Segment, block: u32) -> bool
    ensures { result ≡ spec.fills lanes length passes segment.pass segment.slice segment.lane.0 block }
{
    segment.pass < passes
        && segment.slice < Params::SYNC_POINTS
        && segment.lane.0 < lanes
        && first_block(segment.pass, segment.slice) <= block
        && block < length
}

// The reference lane: the own lane in pass 0, slice 0; else the high half of the word mod lanes.
#[tactic(auto, using(std::proofs::lemmas::Bool::Decides::nat_tests), unfolding(crate::specs::Position::reference_lane))]
fn reference_lane(lanes: u32, segment: Segment, word: u64) -> LaneNumber
    requires { 1 ≤ lanes }
    ensures { result.0 ≡ spec.reference_lane lanes segment.pass segment.slice segment.lane.0 word }
{
    if segment.pass == 0 && segment.slice == 0 {
        return segment.lane;
    }
    LaneNumber((high_half(word) % lanes as u64) as u32)
}

// The place in an area that the low half of the word gives.
fn place(area: u64, word: u64) -> u64
    requires { (1 ≤ area) × (area ≤ max_memory) }
    ensures { result ≡ spec.place area word }
{
    let low = low_half(word);
    let x = low * low / HALF;
    area - 1 - area * x / HALF
}

// A slice of a pass, where a segment has so many blocks.
#[derive(Clone, Copy)]
struct Slice {
    length: u64,
    pass: u32,
    slice: u32,
    ghost fits: { slices * length ≤ max_memory },
    ghost within: { slice < slices },
}

impl Slice {
    // How many blocks the finished segments have: slice · s in pass 0, q - s later.
    #[tactic(auto, using(crate::proofs::Lane::slice_le, std::proofs::lemmas::Bool::Decides::nat_tests), unfolding(crate::specs::Position::finished_length))]
    fn finished_length(self) -> u64
        ensures { result ≡ spec.finished_length self.length self.pass self.slice }
    {
        if self.pass == 0 {
            return self.slice as u64 * self.length;
        }
        Params::SYNC_POINTS as u64 * self.length - self.length
    }

    // The area: the finished segments, and the own lane's blocks of this one but the previous; in another lane less 1 for block 0.
    #[tactic(auto, using(crate::proofs::Lane::finished_le, std::proofs::lemmas::Bool::Decides::nat_tests), unfolding(crate::specs::Position::area))]
    fn area(self, block: u64, own: bool) -> u64
        requires { (block < self.length) × (1 ≤ spec.area self.length self.pass self.slice block own) }
        ensures { result ≡ spec.area self.length self.pass self.slice block own }
    {
        let finished = self.finished_length();
        if own {
            return finished + block - 1;
        }
        if block == 0 {
            return finished - 1;
        }
        finished
    }

    // Where the area starts: behind this slice in later passes, where a slice follows; else at 0.
    #[tactic(auto, using(crate::proofs::Lane::slice_le, std::proofs::lemmas::Bool::Decides::nat_tests), unfolding(crate::specs::Position::area_start))]
    fn area_start(self) -> u64
        ensures { result ≡ spec.area_start self.length self.pass self.slice }
    {
        let next = self.slice + 1;
        if self.pass != 0 && next < Params::SYNC_POINTS {
            return next as u64 * self.length;
        }
        0
    }

    // The column that the word refers to, in the own lane or in another.
    fn reference_column(self, block: u64, own: bool, word: u64) -> BlockNumber
        requires { (block < self.length) × (1 ≤ spec.area self.length self.pass self.slice block own) }
        ensures { result.0 ≡ (spec.area_start self.length self.pass self.slice + spec.place (spec.area self.length self.pass self.slice block own) word) % (slices * self.length) }
    {
        let at = self.area_start() + place(self.area(block, own), word);
        BlockNumber((at % (Params::SYNC_POINTS as u64 * self.length)) as u32)
    }
}

// The lane and the block within it that a block of a segment refers to, where word is its random word. The first of document 01's rows 3 to
// 7 and 17 that holds is the refusal. Numbers and no Params: no caller need invent an algorithm for it.
pub fn reference_position(
    lanes: u32,
    memory: u32,
    passes: u32,
    segment: Segment,
    block: u32,
    word: u64,
) -> Result<Reference, Refusal>
    ensures { ReferencePromise lanes memory passes segment.pass segment.slice segment.lane.0 block word result }
{
    Params::check_costs(lanes, memory, passes)?;
    let length = Params::segment_of(memory, lanes);
    if !fills(lanes, length, passes, segment, block) {
        return Err(Refusal::Inconsistent);
    }
    let lane = reference_lane(lanes, segment, word);
    let slice = Slice {
        length: length as u64,
        pass: segment.pass,
        slice: segment.slice,
    };
    let block = slice.reference_column(block as u64, lane == segment.lane, word);
    Ok(Reference { lane, block })
}
