// The examples of RFC 9106, section 5, and other parameters: by the whole hash, and by start, steps in several orders of
// lanes and finish. The lent memory is dirty, another way each time, and longer than is needed.
use crate::{write_bytes, write_hex};
use argon2::{Job, finish, hash_password_into_with_memory, start};
use block::Block;
use initial::initial_hash;
use lent::{digest, xorshift};
use params::{Inputs, Params};
use std::io;
use std::io::Write;
use turns::play;

// The words that are lent: more than any of these parameters need.
const LENT: usize = 5125;

// What the words behind hold, before and after.
const MARK: u64 = 7;

// The lanes of a schedule.
const TURNS: usize = 2048;

// The examples' inputs.
const INPUTS: Inputs<'static> = Inputs {
    password: &[1; 32],
    salt: &[2; 16],
    secret: &[3; 8],
    ad: &[4; 12],
};

const TAG: usize = 32;

// An order of lanes.
#[derive(Clone, Copy)]
enum Order {
    LaneByLane,
    RoundRobin,
    // The last lane first, with a lane that there is none of between.
    LastFirst,
    // At random, such lanes among them; each number gives another.
    Random(u8),
}

impl Order {
    const ALL: [Order; 7] = [
        Order::LaneByLane,
        Order::RoundRobin,
        Order::LastFirst,
        Order::Random(3),
        Order::Random(4),
        Order::Random(5),
        Order::Random(6),
    ];

    // The number that is printed.
    fn number(self) -> u8 {
        match self {
            Order::LaneByLane => 0,
            Order::RoundRobin => 1,
            Order::LastFirst => 2,
            Order::Random(n) => n,
        }
    }

    // The lane of a turn; random is what was drawn for it.
    fn lane(self, turn: u32, lanes: u32, random: u64) -> u32 {
        match self {
            Order::LaneByLane => (turn / 16).checked_rem(lanes).unwrap_or(0),
            Order::RoundRobin => turn.checked_rem(lanes).unwrap_or(0),
            Order::LastFirst => lanes - turn % lanes.saturating_add(1),
            Order::Random(_) => u32::try_from(random % (lanes as u64 + 2)).unwrap_or(0),
        }
    }

    // The lanes of a schedule.
    fn schedule(self, lanes: u32) -> [u32; TURNS] {
        let mut plan = [0; TURNS];
        let mut random = self.number() as u64 + 1;
        for (turn, lane) in plan.iter_mut().enumerate() {
            random = xorshift(random);
            *lane = self.lane(turn as u32, lanes, random);
        }
        plan
    }
}

// How many words a run needs.
fn needed(params: Params) -> usize {
    Block::WORDS * params.block_count() as usize
}

// Words at random, and marks behind those that are needed.
fn dirty(params: Params, words: &mut [u64], seed: u64) {
    let needed = needed(params);
    let mut x = seed;
    for (i, word) in words.iter_mut().enumerate() {
        x = xorshift(x);
        *word = if i < needed { x } else { MARK };
    }
}

// What a run left: the tag, the digest of the memory, and that the words behind are as they were.
fn write_run<W: Write>(to: &mut W, params: Params, words: &[u64], tag: &[u8]) -> io::Result<()> {
    let count = words.len().min(needed(params));
    let (memory, behind) = words.split_at(count);
    to.write_all(b"tag ")?;
    write_bytes(to, tag)?;
    to.write_all(b" memory ")?;
    write_bytes(to, &digest(memory))?;
    let left = if behind.iter().all(|word| *word == MARK) {
        "kept"
    } else {
        "CHANGED"
    };
    writeln!(to, " {left}")
}

// The parameters, in front of a line.
fn write_params<W: Write>(to: &mut W, params: Params) -> io::Result<()> {
    let Params {
        algorithm,
        version,
        memory,
        passes,
        lanes,
        ..
    } = params;
    write!(
        to,
        "argon2 {algorithm} {version} {memory} {passes} {lanes} "
    )
}

// By the whole hash.
fn at_once<W: Write>(to: &mut W, params: Params, words: &mut [u64]) -> io::Result<()> {
    let mut tag = [0u8; TAG];
    let _ = hash_password_into_with_memory(params, INPUTS, words, &mut tag);
    write_params(to, params)?;
    to.write_all(b"whole ")?;
    write_run(to, params, words, &tag)
}

// By start, steps and finish.
fn in_turns<W: Write>(
    to: &mut W,
    params: Params,
    order: Order,
    words: &mut [u64],
) -> io::Result<()> {
    let mut tag = [0u8; TAG];
    let mut job = start(params, TAG, INPUTS, words).unwrap_or(Job::zeros());
    play(&mut job, words, &order.schedule(params.lanes));
    let _ = finish(job, words, &mut tag);
    write_params(to, params)?;
    write!(to, "order {} ", order.number())?;
    write_run(to, params, words, &tag)
}

// The initial hash.
fn write_initial<W: Write>(to: &mut W, params: Params) -> io::Result<()> {
    write_params(to, params)?;
    to.write_all(b"initial ")?;
    write_hex(to, &initial_hash(params, TAG, INPUTS))
}

// By the whole hash and in every order.
fn every_way<W: Write>(to: &mut W, params: Params, words: &mut [u64]) -> io::Result<()> {
    write_initial(to, params)?;
    dirty(params, words, 1);
    at_once(to, params, words)?;
    for order in Order::ALL {
        dirty(params, words, order.number() as u64 + 2);
        in_turns(to, params, order, words)?;
    }
    Ok(())
}

// The three examples of RFC 9106, of its version and of the one before; then s = 2, 3 and 5, with 1, 3 and 2 lanes.
pub(crate) fn lines<W: Write>(to: &mut W) -> io::Result<()> {
    let mut words = [0u64; LENT];
    for params in [
        Params::from_numbers(Params::D, Params::V0X13, 32, 3, 4, 0),
        Params::from_numbers(Params::I, Params::V0X13, 32, 3, 4, 0),
        Params::from_numbers(Params::ID, Params::V0X13, 32, 3, 4, 0),
        Params::from_numbers(Params::D, Params::V0X10, 32, 3, 4, 0),
        Params::from_numbers(Params::I, Params::V0X10, 32, 3, 4, 0),
        Params::from_numbers(Params::ID, Params::V0X10, 32, 3, 4, 0),
        Params::from_numbers(Params::D, Params::V0X13, 8, 1, 1, 0),
        Params::from_numbers(Params::I, Params::V0X13, 47, 2, 3, 0),
        Params::from_numbers(Params::ID, Params::V0X10, 40, 2, 2, 0),
    ] {
        every_way(to, params, &mut words)?;
    }
    Ok(())
}
