// The recorded whole hashes, fillings and variable-length hashes.
use crate::list;
use crate::list::{Case, MOST, front, is_next, next_text};
use answer::{Refusal, number};
use argon2::{fill_memory, hash_password_into_with_memory};
use blake2b_long::blake2b_long;
use block::Block;
use params::Inputs;
use std::io;
use std::io::{Read, Write};
use std::rt::Files;

// The call that a case is of.
enum Call {
    Hash,
    Fill,
    Long,
}

impl From<u64> for Call {
    fn from(kind: u64) -> Call {
        match kind {
            0 => Call::Hash,
            1 => Call::Fill,
            _ => Call::Long,
        }
    }
}

// The most words that a case is lent: one lane with segments of 129 blocks.
const WORDS: usize = 516 * Block::WORDS;

// The answer of a case's call, whose inputs are the next texts.
fn answered<R: Read>(
    list: &mut R,
    case: Case,
    words: &mut [u64],
    out: &mut [u8],
) -> Result<(), Refusal> {
    let mut password = [0; MOST];
    let mut salt = [0; MOST];
    let mut secret = [0; MOST];
    let mut ad = [0; MOST];
    let inputs = Inputs {
        password: next_text(list, &mut password),
        salt: next_text(list, &mut salt),
        secret: next_text(list, &mut secret),
        ad: next_text(list, &mut ad),
    };
    match Call::from(case.kind) {
        Call::Hash => hash_password_into_with_memory(case.params, inputs, words, out),
        Call::Fill => fill_memory(case.params, inputs, words),
        Call::Long => blake2b_long(inputs.password, out),
    }
}

// Whether answer, output and all lent words of the next case are the recorded ones, over memory that the seed made dirty.
fn agrees<R: Read>(list: &mut R, memory: &mut [u64]) -> bool {
    let case = Case::next(list);
    let words = front(memory, case.words);
    let mut room = [0; MOST];
    let out = front(&mut room, case.length);
    lent::dirty(case.seed, words);
    lent::dirty_bytes(case.seed, out);
    let answer = answered(list, case, words, out);
    let output = is_next(list, out);
    let left = is_next(list, &lent::digest(words));
    number(answer) as u64 == case.answer && output && left
}

// All cases.
pub(crate) fn replay<F: Files, W: Write>(rt: &F, out: &mut W) -> io::Result<()> {
    let mut memory = [0; WORDS];
    list::replay(rt, out, "hashes", |list| agrees(list, &mut memory))
}
