// Document 01's program: one case from bytes, and its answer as one line of text.

#![tactic(auto)]

mod sections;
mod text;

ghost use Rattle.std.specs.Prelude.{◌≡◌, ◌≤◌, length, replicate};
ghost use Rattle.argon2.specs.Promises.{HashPromise};
ghost use Rattle.case_line.specs.Answers as spec;
ghost use Rattle.case_line.specs.Cases.{max_tag, Inside, Fits};
ghost use Rattle.case_line.specs.Lines.{line_bytes};
ghost use Rattle.case_line.specs.Promises.{AnswerLinePromise};

use answer::{Refusal, number};
use argon2::hash_password_into_with_memory;
use params::Inputs;
pub use sections::{BadInput, Case, Span, parse};

// The bytes of a span.
fn part(s: &[u8], b: Span) -> &[u8]
    requires { Inside s.now b }
    ensures { result.now ≡ spec.part s.now b }
{
    &s[b.start..b.end]
}

// The whole hash over the sections of a good case; the tag is out.
fn hash_case(input: &[u8], case: Case, words: &mut [u64], out: &mut [u8]) -> Result<(), Refusal>
    requires { Fits input.now case }
    ensures { HashPromise case.params (spec.part input.now case.password) (spec.part input.now case.salt)
        (spec.part input.now case.secret) (spec.part input.now case.ad) words.old out.old
        result words.new out.new }
{
    let inputs = Inputs {
        password: part(input, case.password),
        salt: part(input, case.salt),
        secret: part(input, case.secret),
        ad: part(input, case.ad),
    };
    hash_password_into_with_memory(case.params, inputs, words, out)
}

// The line that answers a good case: its tag, or the number of the refusal.
fn answer_case(input: &[u8], case: Case, words: &mut [u64], line: &mut [u8]) -> usize
    requires { Fits input.now case × (line_bytes ≤ length line.old) }
    ensures { spec.Answered (spec.hash_of input.now case words.old) line.old result words.new line.new }
{
    let mut room = [0; Case::MAX_TAG];
    let tag = &mut room[..case.tag as usize];
    let answer = hash_case(input, case, words, tag);
    match answer {
        Ok(()) => text::write_tag(tag, line),
        Err(_) => text::write_number(b"refused ", number(answer), line),
    }
}

// The line that answers an input, and how many bytes it is. A lent line too short for some answer stays, and so do the words.
// A lent line and a count, where there could be a String: no library has a heap, and the promise AnswerLinePromise says both.
pub fn answer_line(input: &[u8], words: &mut [u64], line: &mut [u8]) -> usize
    ensures { AnswerLinePromise input.now words.old line.old result words.new line.new }
{
    if line.len() < Case::LINE {
        return 0;
    }
    match parse(input) {
        Ok(case) => answer_case(input, case, words, line),
        Err(bad) => text::write_number(b"bad input ", bad.number(), line),
    }
}
