// Words of 64 bits: the little-endian order of their bytes, and their halves.

#![tactic(auto)]

ghost use Rattle.std.specs.Prelude.{◌≡◌};
ghost use Rattle.word.specs.Promises.{LoadPromise, LoadWordsPromise, StoreWordsPromise, LowHalfPromise, HighHalfPromise};
ghost use Rattle.word.specs.Word.{word_bytes, from_le, number_at};

// The bytes of a word.
pub const WORD: usize = 8;

// The numbers of 32 bits: a word's low half is what it leaves by these, its high half how many of these it has.
pub const HALF: u64 = 0x1_0000_0000;

// The most bytes of an input and of a tag: as many as four bytes can count.
pub const MAX_LENGTH: usize = 0xffff_ffff;

// The N bytes of s from at on; zeros where s has fewer there.
fn bytes_at<const N: usize>(s: &[u8], at: usize) -> [u8; N]
    ensures { from_le result ≡ number_at N s.now at }
{
    let rest = s.get(at..).unwrap_or(&[]);
    rest.first_chunk().copied().unwrap_or([0; N])
}

// The word at the eight bytes of s from at on; 0, and no Option, where s has fewer there, as `LoadPromise` says.
#[tactic(auto, using(crate::proofs::Library::from_le_bytes_8))]
pub fn load(s: &[u8], at: usize) -> u64
    ensures { LoadPromise word_bytes s.now at result }
{
    u64::from_le_bytes(bytes_at(s, at))
}

// The number at the four bytes of s from at on; 0, and no Option, where s has fewer there, as `LoadPromise` says. A
// function beside `load`, since std's `from_le_bytes` is of one type; what the two share is `bytes_at`.
#[tactic(auto, using(crate::proofs::Library::from_le_bytes_4))]
pub fn load32(s: &[u8], at: usize) -> u32
    ensures { LoadPromise 4 s.now at result }
{
    u32::from_le_bytes(bytes_at(s, at))
}

// The words become those of the bytes of s, in their order; 0 where s has fewer.
pub fn load_words(s: &[u8], words: &mut [u64])
    ensures { LoadWordsPromise s.now words.old words.new }
{
    for (n, word) in words.iter_mut().enumerate() {
        *word = load(s, WORD * n);
    }
}

// The bytes of the words, in their order, go to the front of out, as far as it has room; every other byte stays.
pub fn store_words(words: &[u64], out: &mut [u8])
    ensures { StoreWordsPromise words.now out.old out.new }
{
    for (i, byte) in out.iter_mut().enumerate() {
        let Some(word) = words.get(i / WORD) else {
            break;
        };
        *byte = word.to_le_bytes()[i % WORD];
    }
}

// The low half of a word: its 32 low bits.
pub fn low_half(x: u64) -> u64
    ensures { LowHalfPromise x result }
{
    x % HALF
}

// The high half of a word: its 32 high bits.
pub fn high_half(x: u64) -> u64
    ensures { HighHalfPromise x result }
{
    x / HALF
}
