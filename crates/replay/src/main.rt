// Recorded figures, computed anew with the proved functions. No Rust is at hand when this runs; where they come from:
// the compressions of blocks from oracle/blocks/run, which builds the Rust crate's own file; the whole hashes, fillings,
// variable-length hashes and reference positions from oracle/record, which asks the crate, and a plain copy of document 01
// where the crate means something else (oracle/README.md); the steps and finishes from that copy. oracle/pack lays these lists
// into data/.

#![tactic(auto)]

mod blocks;
mod hashes;
mod jobs;
mod list;
mod positions;

use std::io;

fn main(rt: HostRuntime) -> io::Result<()> {
    let mut out = rt.stdout();
    blocks::replay(&mut out)?;
    hashes::replay(&rt, &mut out)?;
    positions::replay(&rt, &mut out)?;
    jobs::replay(&rt, &mut out)
}
