// The line that answers a case: a word, a number or hex digits, and a newline.
ghost use Rattle.std.specs.Prelude.{◌+◌, ◌*◌, ◌≤◌, ◌<◌, length};
ghost use Rattle.case_line.specs.Lines.{Written, numbered_text, tag_text};

// Words, a number under 100 in decimal, and a newline, at the start of the line; how many bytes they are.
// The digits by hand, since std's writer into a slice says nothing of the bytes that it wrote there.
#[tactic(auto, using(crate::proofs::Pushing::one_bytes, crate::proofs::Pushing::two_bytes, crate::proofs::Pushing::one_count, crate::proofs::Pushing::two_count))]
pub(crate) fn write_number(words: &[u8], n: u32, line: &mut [u8]) -> usize
    requires { (n < 100) × (length words.now + 3 ≤ length line.old) }
    ensures { Written (numbered_text words.now n) line.old line.new result }
{
    let end = words.len();
    line[..end].copy_from_slice(words);
    if n < 10 {
        line[end] = b'0' + n as u8;
        line[end + 1] = b'\n';
        return end + 2;
    }
    line[end] = b'0' + (n / 10) as u8;
    line[end + 1] = b'0' + (n % 10) as u8;
    line[end + 2] = b'\n';
    end + 3
}

// `tag `, the tag in lower-case hex, and a newline, at the start of the line; how many bytes they are.
pub(crate) fn write_tag(tag: &[u8], line: &mut [u8]) -> usize
    requires { 5 + 2 * length tag.now ≤ length line.old }
    ensures { Written (tag_text tag.now) line.old line.new result }
{
    let word = b"tag ";
    let (front, rest) = line.split_at_mut(word.len());
    front.copy_from_slice(word);
    let count = hex_text::write(tag, rest);
    rest[count] = b'\n';
    word.len() + count + 1
}
