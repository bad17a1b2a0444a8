// The mixing function G and the rounds (RFC 7693, 3.1 and 3.2).
ghost use Rattle.std.specs.Prelude.{◌≡◌, ℕ, ◌<◌};
ghost use Rattle.word.specs.Table.{table};
ghost use Rattle.blake2b_compression.specs.Compression.{◌!◌, block_words, rounds, G, round, mixed};

use crate::Compression;

// The words of m in the order that s gives.
fn scheduled(m: [u64; Compression::WORDS], s: [u8; Compression::WORDS]) -> [u64; Compression::WORDS]
    requires { (j : ℕ) → s ! j < block_words }
    ensures { result ≡ table (λ j. m ! (s ! j)) block_words }
{
    std::array::from_fn(|j| m[s[j] as usize])
}

// The mixing function G on four words of v, with the message words x and y.
fn g(
    v: [u64; Compression::WORDS],
    a: usize,
    b: usize,
    c: usize,
    d: usize,
    x: u64,
    y: u64,
) -> [u64; Compression::WORDS]
    requires { (a < block_words) × (b < block_words) × (c < block_words) × (d < block_words) }
    ensures { result ≡ G v a b c d x y }
{
    let mut w = v;
    w[a] = w[a].wrapping_add(w[b]).wrapping_add(x);
    w[d] = (w[d] ^ w[a]).rotate_right(32);
    w[c] = w[c].wrapping_add(w[d]);
    w[b] = (w[b] ^ w[c]).rotate_right(24);
    w[a] = w[a].wrapping_add(w[b]).wrapping_add(y);
    w[d] = (w[d] ^ w[a]).rotate_right(16);
    w[c] = w[c].wrapping_add(w[d]);
    w[b] = (w[b] ^ w[c]).rotate_right(63);
    w
}

// One round on v, with the words of w in their order.
fn one_round(
    v: [u64; Compression::WORDS],
    w: [u64; Compression::WORDS],
) -> [u64; Compression::WORDS]
    ensures { result ≡ round (λ j. w ! j) v }
{
    let v1 = g(v, 0, 4, 8, 12, w[0], w[1]);
    let v2 = g(v1, 1, 5, 9, 13, w[2], w[3]);
    let v3 = g(v2, 2, 6, 10, 14, w[4], w[5]);
    let v4 = g(v3, 3, 7, 11, 15, w[6], w[7]);
    let v5 = g(v4, 0, 5, 10, 15, w[8], w[9]);
    let v6 = g(v5, 1, 6, 11, 12, w[10], w[11]);
    let v7 = g(v6, 2, 7, 8, 13, w[12], w[13]);
    g(v7, 3, 4, 9, 14, w[14], w[15])
}

// All rounds on v. The schedule is laid out once, before the loop. `v = one_round(..)` is two statements, since no proof covers a call's
// array that goes straight into a variable.
pub(crate) fn all_rounds(
    v: [u64; Compression::WORDS],
    m: [u64; Compression::WORDS],
) -> [u64; Compression::WORDS]
    ensures { result ≡ mixed rounds m v }
{
    let schedule = Compression::SIGMA;
    let mut v = v;
    for i in 0..Compression::ROUNDS {
        let w = scheduled(m, schedule[i % Compression::ROWS]);
        let u = one_round(v, w);
        v = u;
    }
    v
}
