// Document 01's rows on the inputs of a call, in its order, over a rule. Lengths are numbers of bytes. The memory's is a number of
// what is lent, and the unit is how many of them a block has.

#![tactic(auto)]

ghost use Rattle.std.specs.Prelude.{◌≡◌, ◌++◌, length};
ghost use Rattle.answer.specs.Answers.{number, first};
ghost use Rattle.params.specs.Limits.{rows_from};
ghost use Rattle.checks.specs.Rows.{extra_rows, input_rows};
ghost use Rattle.checks.specs.Promises.{LengthsPromise, PlainPromise, CheckOutputPromise, TooLittlePromise, CheckStartPromise, CheckFillPromise};

use answer::{Refusal, check_length};
use block::Block;
use params::{Inputs, Params};
use word::MAX_LENGTH;

// The unit where words are lent.
pub const WORDS: u32 = Block::WORDS as u32;

// What a call asks of its version and its salt.
#[derive(Clone, Copy)]
pub struct Rule {
    // The oldest version that is taken.
    pub oldest: u32,
    // The least salt, in bytes.
    pub salt: usize,
}

// How many bytes each input has.
#[derive(Clone, Copy)]
pub struct Lengths {
    pub password: usize,
    pub salt: usize,
    pub secret: usize,
    pub ad: usize,
}

impl Lengths {
    // The lengths of these inputs.
    pub fn of(inputs: Inputs) -> Lengths
        ensures { LengthsPromise (length inputs.entry.password.now) (length inputs.entry.salt.now) (length inputs.entry.secret.now)
            (length inputs.entry.ad.now) result }
    {
        Lengths {
            password: inputs.password.len(),
            salt: inputs.salt.len(),
            secret: inputs.secret.len(),
            ad: inputs.ad.len(),
        }
    }
}

impl Rule {
    // Document 01's own rule.
    pub fn plain() -> Rule
        ensures { PlainPromise result }
    {
        Rule {
            oldest: Params::V0X10,
            salt: Params::MIN_SALT,
        }
    }
}

// Rows 9 and 10.
fn check_extra(secret: usize, ad: usize) -> Result<(), Refusal>
    ensures { number result ≡ first (extra_rows secret ad) }
{
    if Params::MAX_DATA < ad {
        return Err(Refusal::AdTooLong);
    }
    if MAX_LENGTH < secret {
        return Err(Refusal::SecretTooLong);
    }
    Ok(())
}

// Rows 1 to 10.
fn check_numbers(rule: Rule, params: Params, lengths: Lengths) -> Result<(), Refusal>
    ensures { number result ≡ first (rows_from rule.oldest params ++ extra_rows lengths.secret lengths.ad) }
{
    params.check_from(rule.oldest)?;
    check_extra(lengths.secret, lengths.ad)
}

// Rows 11 and 12, by the configured length.
pub fn check_output(configured: Option<u32>, n: usize) -> Result<(), Refusal>
    ensures { CheckOutputPromise configured n result }
{
    match configured {
        None => check_length(Params::MIN_TAG as usize, MAX_LENGTH, n),
        Some(k) => check_length(k as usize, k as usize, n),
    }
}

// Row 16: whether what is lent is too little for the blocks. Unit, parameters and what is lent stay three arguments: each caller has them
// apart, and would make a type of them for one call.
pub fn too_little(unit: u32, params: Params, lent: usize) -> bool
    ensures { TooLittlePromise unit params lent result }
{
    lent < unit as usize * params.block_count() as usize
}

// Rows 13 to 16.
fn check_inputs(
    least: usize,
    unit: u32,
    params: Params,
    lengths: Lengths,
    lent: usize,
) -> Result<(), Refusal>
    ensures { number result ≡ first (input_rows least unit params lengths.password lengths.salt lent) }
{
    if MAX_LENGTH < lengths.password {
        return Err(Refusal::PwdTooLong);
    }
    if lengths.salt < least {
        return Err(Refusal::SaltTooShort);
    }
    if MAX_LENGTH < lengths.salt {
        return Err(Refusal::SaltTooLong);
    }
    if too_little(unit, params, lent) {
        return Err(Refusal::MemoryTooLittle);
    }
    Ok(())
}

// Rows 1 to 16.
pub fn check_start(
    rule: Rule,
    unit: u32,
    params: Params,
    tag: usize,
    lengths: Lengths,
    lent: usize,
) -> Result<(), Refusal>
    ensures { CheckStartPromise rule unit params tag lengths.password lengths.salt lengths.secret lengths.ad lent result }
{
    check_numbers(rule, params, lengths)?;
    check_output(params.configured, tag)?;
    check_inputs(rule.salt, unit, params, lengths, lent)
}

// Rows 1 to 10 and 13 to 16.
pub fn check_fill(
    rule: Rule,
    unit: u32,
    params: Params,
    lengths: Lengths,
    lent: usize,
) -> Result<(), Refusal>
    ensures { CheckFillPromise rule unit params lengths.password lengths.salt lengths.secret lengths.ad lent result }
{
    check_numbers(rule, params, lengths)?;
    check_inputs(rule.salt, unit, params, lengths, lent)
}
