// Argon2 (RFC 9106), one block a call, in memory that the caller lends.

#![tactic(auto)]

ghost use Rattle.argon2.specs.Promises.{StartPromise, StepPromise, FinishPromise, HashPromise, FillMemoryPromise};

use answer::Refusal;
use checks::{Lengths, Rule, WORDS, check_fill, check_start};
use filling::{fill_all, fill_blocks};
use initial::initial_hash;
pub use job::Job;
use memory::{first_blocks, write_tag};
use params::{Inputs, Params};
use position::{LaneNumber, Segment};

// Argon2 as a whole: the tag fills out, and the words are left as the filling leaves them. Refused, words and out stay.
pub fn hash_password_into_with_memory(
    params: Params,
    inputs: Inputs,
    words: &mut [u64],
    out: &mut [u8],
) -> Result<(), Refusal>
    ensures { HashPromise params inputs.entry.password.now inputs.entry.salt.now inputs.entry.secret.now inputs.entry.ad.now
        words.old out.old result words.new out.new }
{
    let rule = Rule::plain();
    let lengths = Lengths::of(inputs);
    check_start(rule, WORDS, params, out.len(), lengths, words.len())?;
    let h = initial_hash(params, out.len(), inputs);
    first_blocks(words, params, h);
    fill_all(words, params);
    write_tag(words, params, out);
    Ok(())
}

// The filling alone, its initial hash taken with tag length 0. Refused, the words stay.
pub fn fill_memory(params: Params, inputs: Inputs, words: &mut [u64]) -> Result<(), Refusal>
    ensures { FillMemoryPromise params inputs.entry.password.now inputs.entry.salt.now inputs.entry.secret.now inputs.entry.ad.now
        words.old result words.new }
{
    let rule = Rule::plain();
    let lengths = Lengths::of(inputs);
    check_fill(rule, WORDS, params, lengths, words.len())?;
    let h = initial_hash(params, 0, inputs);
    first_blocks(words, params, h);
    fill_all(words, params);
    Ok(())
}

// Start: blocks 0 and 1 of every lane, and the job before the first step. Refused, the words stay and the job of zeros stands for the job.
pub fn start(params: Params, tag: usize, inputs: Inputs, words: &mut [u64]) -> Result<Job, Refusal>
    ensures { StartPromise params tag inputs.entry.password.now inputs.entry.salt.now inputs.entry.secret.now inputs.entry.ad.now
        words.old result words.new }
{
    let rule = Rule::plain();
    let lengths = Lengths::of(inputs);
    check_start(rule, WORDS, params, tag, lengths, words.len())?;
    let h = initial_hash(params, tag, inputs);
    first_blocks(words, params, h);
    Ok(Job::start(params, tag))
}

// A step: fills the next block of a lane. Refused, job and words stay.
pub fn step(job: &mut Job, words: &mut [u64], lane: LaneNumber) -> Result<(), Refusal>
    ensures { StepPromise job.old words.old lane.0 result job.new words.new }
{
    let next = job.after(words.len(), lane)?;
    let segment = Segment {
        pass: job.pass,
        slice: job.slice,
        lane,
    };
    let block = job.position(lane);
    fill_blocks(words, job.params, segment, block..block + 1);
    *job = next;
    Ok(())
}

// Finish: the tag of a job that is complete fills out. Refused, out stays.
pub fn finish(job: Job, words: &[u64], out: &mut [u8]) -> Result<(), Refusal>
    ensures { FinishPromise job words.now out.old result out.new }
{
    job.check_finish(words.len(), out.len())?;
    write_tag(words, job.params, out);
    Ok(())
}
