// Demand 3: steps of the lanes in any order, and what follows of them.

#![tactic(auto)]

ghost use Rattle.turns.specs.Promises.{PlayPromise};

use argon2::Job;
use position::LaneNumber;

// Steps of these lanes, one after the other. Refusals are passed over.
pub fn play(job: &mut Job, words: &mut [u64], schedule: &[u32])
    ensures { PlayPromise job.old words.old schedule.now job.new words.new }
{
    for lane in schedule {
        let _ = argon2::step(job, words, LaneNumber(*lane));
    }
}
