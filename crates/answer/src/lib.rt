// Document 01's table of answers.

#![tactic(auto)]

ghost use Rattle.answer.specs.Promises.{NumberPromise, CheckLengthPromise};

// Why a call is refused; the number is the table's first column.
#[derive(Clone, Copy, Debug, PartialEq, Eq)]
pub enum Refusal {
    AlgorithmInvalid = 1,
    VersionInvalid = 2,
    ThreadsTooFew = 3,
    ThreadsTooMany = 4,
    MemoryTooSmall = 5,
    MemoryTooMuch = 6,
    TimeTooSmall = 7,
    TagTooShort = 8,
    AdTooLong = 9,
    SecretTooLong = 10,
    OutputTooShort = 11,
    OutputTooLong = 12,
    PwdTooLong = 13,
    SaltTooShort = 14,
    SaltTooLong = 15,
    MemoryTooLittle = 16,
    Inconsistent = 17,
    Complete = 18,
    NoSuchLane = 19,
    LaneFinished = 20,
    NotComplete = 21,
}

// An answer's number: 0 where it accepts.
pub fn number(answer: Result<(), Refusal>) -> u32
    ensures { NumberPromise answer result }
{
    match answer {
        Ok(()) => 0,
        Err(refusal) => refusal as u32,
    }
}

// Rows 11 and 12, for an output of n bytes that may have from least to most.
pub fn check_length(least: usize, most: usize, n: usize) -> Result<(), Refusal>
    ensures { CheckLengthPromise least most n result }
{
    if n < least {
        return Err(Refusal::OutputTooShort);
    }
    if most < n {
        return Err(Refusal::OutputTooLong);
    }
    Ok(())
}
