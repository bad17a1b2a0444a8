// The recorded steps and finishes, on jobs that are consistent and on jobs that are not.
use crate::list;
use crate::list::{Case, MOST, front, is_next, low, number};
use argon2::{finish, step};
use block::Block;
use job::Job;
use position::LaneNumber;
use std::io;
use std::io::{Read, Write};
use std::rt::Files;

// The call that a case is of.
enum Call {
    Step,
    Finish,
}

impl From<u64> for Call {
    fn from(kind: u64) -> Call {
        match kind {
            0 => Call::Step,
            _ => Call::Finish,
        }
    }
}

// The most words that a case is lent: sixteen lanes with segments of two blocks.
const WORDS: usize = 128 * Block::WORDS;

// The numbers of a job before its positions, and all of them.
const HEADER: usize = 9;

const FIGURES: usize = HEADER + Job::LANES;

// The job of a case, whose place follows its numbers.
fn next_job<R: Read>(list: &mut R, case: Case) -> Job {
    let pass = low(number(list));
    let slice = low(number(list));
    let mut positions = [0; Job::LANES];
    for position in &mut positions {
        *position = low(number(list));
    }
    Job {
        params: case.params,
        tag: case.length as usize,
        pass,
        slice,
        positions,
    }
}

// A configured length: absent is 0, else it is one more.
fn chosen(configured: Option<u32>) -> u64 {
    configured.map_or(0, |n| n as u64 + 1)
}

// All numbers of a job, in its order.
fn figures(job: Job) -> [u64; FIGURES] {
    let header = [
        job.params.algorithm as u64,
        job.params.version as u64,
        job.params.memory as u64,
        job.params.passes as u64,
        job.params.lanes as u64,
        chosen(job.params.configured),
        job.tag as u64,
        job.pass as u64,
        job.slice as u64,
    ];
    let mut figures = [0; FIGURES];
    figures[..HEADER].copy_from_slice(&header);
    for (figure, position) in figures[HEADER..].iter_mut().zip(job.positions) {
        *figure = position as u64;
    }
    figures
}

// Whether a step of a case's job has the recorded answer and leaves the recorded job.
fn step_agrees<R: Read>(
    list: &mut R,
    case: Case,
    mut job: Job,
    words: &mut [u64],
    lane: LaneNumber,
) -> bool {
    let answer = step(&mut job, words, lane);
    let left = is_next(list, &lent::digest(&figures(job)));
    answer::number(answer) as u64 == case.answer && left
}

// Whether a finish of a case's job has the recorded answer and output, over an output that the seed made dirty.
fn finish_agrees<R: Read>(list: &mut R, case: Case, job: Job, words: &[u64], length: u64) -> bool {
    let mut room = [0; MOST];
    let out = front(&mut room, length);
    lent::dirty_bytes(case.seed, out);
    let answer = finish(job, words, out);
    let output = is_next(list, out);
    answer::number(answer) as u64 == case.answer && output
}

// Whether the call and all lent words of the next case are as recorded, over memory that the seed made dirty.
fn agrees<R: Read>(list: &mut R, memory: &mut [u64]) -> bool {
    let case = Case::next(list);
    let words = front(memory, case.words);
    lent::dirty(case.seed, words);
    let job = next_job(list, case);
    let argument = number(list);
    let called = match Call::from(case.kind) {
        Call::Step => step_agrees(list, case, job, words, LaneNumber(low(argument))),
        Call::Finish => finish_agrees(list, case, job, words, argument),
    };
    let left = is_next(list, &lent::digest(words));
    called && left
}

// All cases.
pub(crate) fn replay<F: Files, W: Write>(rt: &F, out: &mut W) -> io::Result<()> {
    let mut memory = [0; WORDS];
    list::replay(rt, out, "jobs", |list| agrees(list, &mut memory))
}
