// Document 01's numbers: the parameters, their limits and the sizes that they give.

#![tactic(auto)]

ghost use Rattle.params.specs.Promises.{CostsPromise, CheckNumbersPromise, CheckFromPromise, CheckPromise, SegmentOfPromise, SegmentPromise, LanePromise, BlocksPromise, FromNumbersPromise};

use answer::Refusal;

#[derive(Clone, Copy)]
pub struct Params {
    // Algorithm and version are numbers: any is answered, by rows 1 and 2 (`CheckNumbersPromise`).
    pub algorithm: u32,
    pub version: u32,
    pub memory: u32,
    pub passes: u32,
    pub lanes: u32,
    // The configured tag length.
    pub configured: Option<u32>,
}

// What a key is derived from, beside the parameters.
#[derive(Clone, Copy)]
pub struct Inputs<'a> {
    pub password: &'a [u8],
    pub salt: &'a [u8],
    pub secret: &'a [u8],
    // The associated data.
    pub ad: &'a [u8],
}

impl Params {
    // Algorithms d, i and id.
    pub const D: u32 = 0;

    pub const I: u32 = 1;

    pub const ID: u32 = 2;

    pub const V0X10: u32 = 16;

    pub const V0X13: u32 = 19;

    pub const MAX_LANES: u32 = 16;

    pub const MAX_MEMORY: u32 = 1_048_576;

    // A pass has four slices, and at each slice's end the lanes wait for each other.
    pub const SYNC_POINTS: u32 = 4;

    // Two blocks for each of a lane's segments.
    pub const MIN_LANE: u32 = 2 * Params::SYNC_POINTS;

    pub const MIN_TAG: u32 = 4;

    // The least salt, and the most associated data.
    pub const MIN_SALT: usize = 8;

    pub const MAX_DATA: usize = 32;

    // The parameters of six numbers, as the program and the C boundary have them: a configured length of 0 stands for none.
    pub fn from_numbers(
        algorithm: u32,
        version: u32,
        memory: u32,
        passes: u32,
        lanes: u32,
        configured: u32,
    ) -> Params
        ensures { FromNumbersPromise algorithm version memory passes lanes configured result }
    {
        Params {
            algorithm,
            version,
            memory,
            passes,
            lanes,
            configured: if configured == 0 {
                None
            } else {
                Some(configured)
            },
        }
    }

    // The first of document 01's rows 3 to 7 that holds.
    pub fn check_costs(lanes: u32, memory: u32, passes: u32) -> Result<(), Refusal>
        ensures { CostsPromise lanes memory passes result }
    {
        if lanes == 0 {
            return Err(Refusal::ThreadsTooFew);
        }
        if Params::MAX_LANES < lanes {
            return Err(Refusal::ThreadsTooMany);
        }
        if memory < Params::MIN_LANE * lanes {
            return Err(Refusal::MemoryTooSmall);
        }
        if Params::MAX_MEMORY < memory {
            return Err(Refusal::MemoryTooMuch);
        }
        if passes == 0 {
            return Err(Refusal::TimeTooSmall);
        }
        Ok(())
    }

    // The first of document 01's rows 1 to 7 that holds, where no version before the oldest is taken.
    pub fn check_numbers(self, oldest: u32) -> Result<(), Refusal>
        ensures { CheckNumbersPromise self oldest result }
    {
        if !matches!(self.algorithm, Params::D | Params::I | Params::ID) {
            return Err(Refusal::AlgorithmInvalid);
        }
        if !matches!(self.version, Params::V0X10 | Params::V0X13) || self.version < oldest {
            return Err(Refusal::VersionInvalid);
        }
        Params::check_costs(self.lanes, self.memory, self.passes)
    }

    // The first of rows 1 to 8 that holds, where no version before the oldest is taken.
    pub fn check_from(self, oldest: u32) -> Result<(), Refusal>
        ensures { CheckFromPromise self oldest result }
    {
        self.check_numbers(oldest)?;
        match self.configured {
            Some(n) if n < Params::MIN_TAG => Err(Refusal::TagTooShort),
            _ => Ok(()),
        }
    }

    // The first of document 01's rows 1 to 8 that holds: version 16 is taken.
    pub fn check(self) -> Result<(), Refusal>
        ensures { CheckPromise self result }
    {
        self.check_from(Params::V0X10)
    }

    // s = floor(m / 4p), of m and p; 0, and no Option, without lanes, as `SegmentOfPromise` says.
    pub fn segment_of(memory: u32, lanes: u32) -> u32
        ensures { SegmentOfPromise memory lanes result }
    {
        if lanes == 0 {
            return 0;
        }
        (memory as u64 / (Params::SYNC_POINTS as u64 * lanes as u64)) as u32
    }

    // The segment length of these parameters.
    pub fn segment_length(self) -> u32
        ensures { SegmentPromise self result }
    {
        Params::segment_of(self.memory, self.lanes)
    }

    // q = 4s.
    pub fn lane_length(self) -> u32
        ensures { LanePromise self result }
    {
        Params::SYNC_POINTS * self.segment_length()
    }

    // m' = pq.
    pub fn block_count(self) -> u32
        ensures { BlocksPromise self result }
    {
        self.lanes * self.lane_length()
    }
}
