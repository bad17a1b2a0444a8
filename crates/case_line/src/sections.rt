// A case is five sections, each after its count: seven numbers, password, salt, secret, data.
ghost use Rattle.std.specs.Prelude.{◌≡◌, ◌≤◌};
ghost use Rattle.case_line.specs.Cases.{numbers, number_of, params_of, section_at, bad_number};
ghost use Rattle.case_line.specs.Promises.{ParsePromise};

use params::Params;

// A part of the input: from start up to end. No Range, which is not Copy: a case is passed by value, and its parts are read from it.
#[derive(Clone, Copy)]
pub struct Span {
    pub start: usize,
    pub end: usize,
}

#[derive(Clone, Copy)]
pub struct Case {
    pub params: Params,
    // The tag's length.
    pub tag: u32,
    pub password: Span,
    pub salt: Span,
    pub secret: Span,
    pub ad: Span,
}

// The first section that is bad; the number is the section's, and End's is of bytes after the last.
#[derive(Clone, Copy, Debug, PartialEq, Eq)]
pub enum BadInput {
    Numbers = 1,
    Password = 2,
    Salt = 3,
    Secret = 4,
    Data = 5,
    End = 6,
}

impl BadInput {
    // The number that the answer's line says.
    pub(crate) fn number(self) -> u32
        ensures { result ≡ bad_number self }
    {
        self as u32
    }
}

impl Case {
    // The numbers of section 1.
    pub const NUMBERS: u32 = 7;

    // A count or a number has four bytes.
    pub const NUMBER: usize = 4;

    // Section 2 begins after section 1's count and numbers.
    pub const NUMBERS_END: usize = Case::NUMBER * (1 + Case::NUMBERS as usize);

    pub const MAX_SECTION: u32 = 255;

    pub const MAX_TAG: usize = 256;

    // Room for the longest answer: `tag `, two digits a byte, and a newline.
    pub const LINE: usize = 4 + 2 * Case::MAX_TAG + 1;

    // The longest good case: section 1, and four sections of a count and the most bytes.
    pub const LONGEST: usize = Case::NUMBERS_END + 4 * (Case::NUMBER + Case::MAX_SECTION as usize);
}

// Number k of section 1, its count being number 0.
fn number(s: &[u8], k: usize) -> u32
    requires { k ≤ numbers }
    ensures { result ≡ number_of s.now k }
{
    word::load32(s, Case::NUMBER * k)
}

// The parameters are the first six numbers.
#[tactic(auto, unfolding(crate::specs::Cases::params_of))]
fn params_of(s: &[u8]) -> Params
    ensures { result ≡ params_of s.now }
{
    Params::from_numbers(
        number(s, 1),
        number(s, 2),
        number(s, 3),
        number(s, 4),
        number(s, 5),
        number(s, 6),
    )
}

// The bytes of the section at a place, behind its count, which is at most 255; none where it is cut.
#[tactic(auto, unfolding(crate::specs::Cases::section_at))]
fn section_at(s: &[u8], at: usize) -> Option<Span>
    ensures { result ≡ section_at s.now at }
{
    let start = at.checked_add(Case::NUMBER)?;
    if s.len() < start {
        return None;
    }
    let count = word::load32(s, at);
    let bytes = count as usize;
    if Case::MAX_SECTION < count || s.len() - start < bytes {
        return None;
    }
    Some(Span {
        start,
        end: start + bytes,
    })
}

// One case, or its first bad section. Section 1 is bad where it is cut, its count is not 7 or the tag length is over 256.
#[tactic(auto, unfolding(crate::specs::Cases::parsed, crate::specs::Cases::numbers_bad, crate::specs::Cases::with_password, crate::specs::Cases::with_salt, crate::specs::Cases::with_secret, crate::specs::Cases::with_data))]
pub fn parse(input: &[u8]) -> Result<Case, BadInput>
    ensures { ParsePromise input.now result }
{
    if input.len() < Case::NUMBERS_END
        || number(input, 0) != Case::NUMBERS
        || Case::MAX_TAG < number(input, 7) as usize
    {
        return Err(BadInput::Numbers);
    }
    let password = section_at(input, Case::NUMBERS_END).ok_or(BadInput::Password)?;
    let salt = section_at(input, password.end).ok_or(BadInput::Salt)?;
    let secret = section_at(input, salt.end).ok_or(BadInput::Secret)?;
    let ad = section_at(input, secret.end).ok_or(BadInput::Data)?;
    if ad.end < input.len() {
        return Err(BadInput::End);
    }
    Ok(Case {
        params: params_of(input),
        tag: number(input, 7),
        password,
        salt,
        secret,
        ad,
    })
}
