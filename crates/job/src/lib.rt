// Document 01's job: the accepted numbers, the place in the filling and one position for each lane.

#![tactic(auto)]

ghost use Rattle.std.specs.Prelude.{drop, eqb, leb, ltb, replicate, ◌&&◌, ◌++◌, ◌≡◌, ◌-◌, ◌<◌, ◌≤◌};
ghost use Rattle.std.specs.List.{list_all, list_any};
ghost use Rattle.params.specs.Limits.{max_lanes, slices, segment};
ghost use Rattle.job.specs.Jobs as spec;
ghost use Rattle.job.specs.Promises.{ZerosPromise, JobStartPromise, ConsistentPromise, PositionPromise, CheckStepPromise, CheckFinishPromise, AfterPromise};

use answer::{Refusal, check_length};
use checks::{WORDS, check_output, too_little};
use params::Params;
use position::{LaneNumber, first_block};

#[derive(Clone, Copy)]
pub struct Job {
    pub params: Params,
    // The tag's length.
    pub tag: usize,
    pub pass: u32,
    pub slice: u32,
    // The block within the segment that comes next, for each lane.
    pub positions: [u32; Job::LANES],
}

// Whether each of some lanes from one on stands at 0.
fn zero_from(lanes: &[u32], from: usize) -> bool
    ensures { result ≡ list_all (λ block. eqb block 0) (drop from lanes.now) }
{
    lanes.iter().skip(from).all(|block| *block == 0)
}

// Whether each of some lanes stands between two blocks.
fn all_between(lanes: &[u32], low: u32, high: u32) -> bool
    ensures { result ≡ list_all (λ block. leb low block && leb block high) lanes.now }
{
    lanes.iter().all(|block| low <= *block && *block <= high)
}

// Whether some of some lanes stands under a block.
fn some_under(lanes: &[u32], end: u32) -> bool
    ensures { result ≡ list_any (λ block. ltb block end) lanes.now }
{
    lanes.iter().any(|block| *block < end)
}

// The positions of a job that starts: a block for each of the first lanes, 0 for the others.
fn positions_at(lanes: u32, block: u32) -> [u32; Job::LANES]
    requires { lanes ≤ max_lanes }
    ensures { result ≡ replicate lanes block ++ replicate (max_lanes - lanes) 0 }
{
    let mut positions = [0; Job::LANES];
    positions[..lanes as usize].fill(block);
    positions
}

impl Job {
    pub const LANES: usize = Params::MAX_LANES as usize;

    // The job that stands for the one that a refused start does not give.
    #[tactic(auto, unfolding(crate::specs::Jobs::zero_job))]
    pub fn zeros() -> Job
        ensures { ZerosPromise result }
    {
        Job {
            params: Params {
                algorithm: 0,
                version: 0,
                memory: 0,
                passes: 0,
                lanes: 0,
                configured: None,
            },
            tag: 0,
            pass: 0,
            slice: 0,
            positions: [0; Job::LANES],
        }
    }

    // Whether its tag length is one that its numbers allow.
    fn tag_allowed(self) -> bool
        ensures { result ≡ spec.tag_allowed self }
    {
        check_output(self.params.configured, self.tag).is_ok()
    }

    // Whether lanes not in use stand at 0.
    fn laid_out(self) -> bool
        ensures { result ≡ spec.laid_out self }
    {
        zero_from(&self.positions, self.params.lanes as usize)
    }

    // What asks below for a few lanes is no type that has them as its fact: any record is a job, so each call would make that type first.

    // Whether filling is complete.
    fn complete(self) -> bool
        ensures { result ≡ spec.complete self }
    {
        self.pass == self.params.passes
    }

    // Whether it stands complete: at slice 0, each used lane at 0.
    fn stands_complete(self) -> bool
        requires { self.params.lanes ≤ max_lanes }
        ensures { result ≡ spec.stands_complete self }
    {
        self.complete()
            && self.slice == 0
            && zero_from(&self.positions[..self.params.lanes as usize], 0)
    }

    // Whether some used lane is under the segment's end.
    fn unfinished(self) -> bool
        requires { self.params.lanes ≤ max_lanes }
        ensures { result ≡ spec.unfinished self }
    {
        let end = self.params.segment_length();
        some_under(&self.positions[..self.params.lanes as usize], end)
    }

    // Whether each used lane stands between two blocks.
    fn used_between(self, low: u32, high: u32) -> bool
        requires { self.params.lanes ≤ max_lanes }
        ensures { result ≡ spec.all self.params.lanes (λ l. leb low (spec.position self l) && leb (spec.position self l) high) }
    {
        all_between(&self.positions[..self.params.lanes as usize], low, high)
    }

    // Whether it stands inside filling: each used lane between the segment's first block and its end, and one under that.
    #[tactic(auto, using(std::proofs::lemmas::Bool::Decides::nat_tests))]
    fn stands_inside(self) -> bool
        requires { self.params.lanes ≤ max_lanes }
        ensures { result ≡ spec.stands_inside self }
    {
        let from = first_block(self.pass, self.slice);
        let end = self.params.segment_length();
        self.pass < self.params.passes
            && self.slice < Params::SYNC_POINTS
            && self.used_between(from, end)
            && self.unfinished()
    }

    // Whether its numbers pass rows 1 to 8, its tag length is one they allow, lanes not in use stand at 0, and it stands complete or inside.
    #[tactic(auto, using(params::proofs::Within::params_within, std::proofs::lemmas::Bool::Decides::nat_tests), unfolding(crate::specs::Jobs::consistent))]
    pub fn consistent(self) -> bool
        ensures { ConsistentPromise self result }
    {
        self.params.check().is_ok()
            && self.tag_allowed()
            && self.laid_out()
            && (self.stands_complete() || self.stands_inside())
    }

    // The block of a lane's segment that comes next; 0, and no Option, for a lane past the array, as `PositionPromise` says.
    pub fn position(self, lane: LaneNumber) -> u32
        ensures { PositionPromise self lane.0 result }
    {
        self.positions.get(lane.0 as usize).copied().unwrap_or(0)
    }

    // The first of rows 17, 16, 18, 19 and 20 that holds.
    pub fn check_step(self, words: usize, lane: LaneNumber) -> Result<(), Refusal>
        ensures { CheckStepPromise self words lane.0 result }
    {
        if !self.consistent() {
            return Err(Refusal::Inconsistent);
        }
        if too_little(WORDS, self.params, words) {
            return Err(Refusal::MemoryTooLittle);
        }
        if self.complete() {
            return Err(Refusal::Complete);
        }
        if self.params.lanes <= lane.0 {
            return Err(Refusal::NoSuchLane);
        }
        if self.position(lane) == self.params.segment_length() {
            return Err(Refusal::LaneFinished);
        }
        Ok(())
    }

    // The first of rows 17, 16, 21, 11 and 12 that holds, for an output of n bytes.
    pub fn check_finish(self, words: usize, n: usize) -> Result<(), Refusal>
        ensures { CheckFinishPromise self words n result }
    {
        if !self.consistent() {
            return Err(Refusal::Inconsistent);
        }
        if too_little(WORDS, self.params, words) {
            return Err(Refusal::MemoryTooLittle);
        }
        if !self.complete() {
            return Err(Refusal::NotComplete);
        }
        check_length(self.tag, self.tag, n)
    }

    // The job with a lane's position one further.
    #[tactic(auto, using(params::proofs::Sizes::lane_le), unfolding(crate::specs::Jobs::moved))]
    fn moved(self, lane: LaneNumber) -> Job
        requires { (lane.0 < max_lanes) × (spec.position self lane.0 < segment self.params) }
        ensures { result ≡ spec.moved self lane.0 }
    {
        let mut job = self;
        job.positions[lane.0 as usize] += 1;
        job
    }

    // The job at the next slice or pass, all lanes at 0.
    #[tactic(auto, using(std::proofs::lemmas::Bool::Decides::nat_tests), unfolding(crate::specs::Jobs::next_slice))]
    fn next_slice(self) -> Job
        requires { (self.slice < slices) × (self.pass < self.params.passes) }
        ensures { result ≡ spec.next_slice self }
    {
        let mut job = self;
        job.positions = [0; Job::LANES];
        job.slice = self.slice + 1;
        if job.slice < Params::SYNC_POINTS {
            return job;
        }
        job.pass = self.pass + 1;
        job.slice = 0;
        job
    }

    // The job, moved at once to the next slice or pass if its last lane has reached the segment's end.
    #[tactic(auto, using(std::proofs::lemmas::Bool::Decides::nat_tests), unfolding(crate::specs::Jobs::onward))]
    fn onward(self) -> Job
        requires { (self.params.lanes ≤ max_lanes) × (self.slice < slices) × (self.pass < self.params.passes) }
        ensures { result ≡ spec.onward self }
    {
        if self.unfinished() {
            return self;
        }
        self.next_slice()
    }

    // The job after a step of a lane, with so many words lent.
    pub fn after(self, words: usize, lane: LaneNumber) -> Result<Job, Refusal>
        ensures { AfterPromise self words lane.0 result }
    {
        self.check_step(words, lane)?;
        Ok(self.moved(lane).onward())
    }

    // The job before the first step; a job of zeros, and no Result, for parameters that rows 1 to 8 refuse, as `JobStartPromise` says.
    pub fn start(params: Params, tag: usize) -> Job
        ensures { JobStartPromise params tag result }
    {
        let Ok(()) = params.check() else {
            return Job::zeros();
        };
        let job = Job {
            params,
            tag,
            pass: 0,
            slice: 0,
            positions: positions_at(params.lanes, first_block(0, 0)),
        };
        job.onward()
    }
}
