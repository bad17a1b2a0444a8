// Lower-case hex, as document 01's program writes a tag.

#![tactic(auto)]

ghost use Rattle.std.specs.Prelude.{◌<◌, ◌≡◌};
ghost use Rattle.hex_text.specs.Hex.{digit_of};
ghost use Rattle.hex_text.specs.Promises.{DigitsPromise, WritePromise};

// The digit of a number under 16. No `{:x}`: std's formatting says nothing of the bytes that it writes.
fn digit(n: u8) -> u8
    requires { n < 16 }
    ensures { result ≡ digit_of n }
{
    if n < 10 { b'0' + n } else { b'a' + (n - 10) }
}

// The two digits of a byte, the high one first.
pub fn digits(b: u8) -> [u8; 2]
    ensures { DigitsPromise b result }
{
    [digit(b / 16), digit(b % 16)]
}

// The digits of the bytes, at the start of the text; how many they are. A text that has no room for them is left alone: 0, and no Option,
// as `WritePromise` says. A lent text and a count, where there could be a String: no library has a heap.
#[tactic(auto, using(crate::proofs::Text::one_more), unfolding(crate::specs::Hex::hex_digits))]
pub fn write(bytes: &[u8], text: &mut [u8]) -> usize
    ensures { WritePromise bytes.now text.old result text.new }
{
    if text.len() / 2 < bytes.len() {
        return 0;
    }
    for (k, byte) in bytes.iter().enumerate() {
        let pair = digits(*byte);
        text[2 * k..2 * k + 2].copy_from_slice(&pair);
    }
    2 * bytes.len()
}
