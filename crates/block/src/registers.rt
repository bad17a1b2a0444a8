// Lines of registers: a row's, or a column's.
ghost use Rattle.std.specs.Prelude.{◌≡◌, ◌<◌, length};
ghost use Rattle.block.specs.Block as spec;
ghost use Rattle.block.specs.Line.{Inside, Laid};

use crate::Block;

// A line that stands in the block: it has register first, and each step-th after it.
#[derive(Clone, Copy)]
pub(crate) struct Line {
    pub(crate) first: usize,
    pub(crate) step: usize,
    ghost inside: { Inside first step },
}

impl Line {
    // Where word k of the line stands.
    fn place(self, k: usize) -> usize
        requires { k < spec.row_words }
        ensures { (result ≡ spec.place self.first self.step k) × (result < spec.block_words) }
    {
        Block::REGISTER * (self.first + self.step * (k / Block::REGISTER)) + k % Block::REGISTER
    }

    // The words of the line.
    pub(crate) fn read(self, q: &[u64; Block::WORDS]) -> [u64; Block::ROW]
        ensures { result ≡ spec.registers self.first self.step q.now }
    {
        std::array::from_fn(|k| q[self.place(k)])
    }

    // Sixteen words laid down as the line; every other word stays.
    pub(crate) fn lay(self, t: &mut [u64; Block::WORDS], v: [u64; Block::ROW])
        requires { length t.old ≡ spec.block_words }
        ensures { Laid self.first self.step spec.row_words v t.old t.new }
    {
        for k in 0..Block::ROW {
            let at = self.place(k);
            t[at] = v[k];
        }
    }
}
