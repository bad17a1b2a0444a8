// The recorded reference positions.
use crate::list;
use crate::list::{low, number};
use position::{LaneNumber, Reference, Segment, reference_position};
use std::io;
use std::io::{Read, Write};
use std::rt::Files;

// Whether the next case has the recorded answer, lane and block.
fn agrees<R: Read>(list: &mut R) -> bool {
    let lanes = low(number(list));
    let memory = low(number(list));
    let passes = low(number(list));
    let segment = Segment {
        pass: low(number(list)),
        slice: low(number(list)),
        lane: LaneNumber(low(number(list))),
    };
    let block = low(number(list));
    let word = number(list);
    let position = reference_position(lanes, memory, passes, segment, block, word);
    let answer = answer::number(position.map(|_| ()));
    let reference = position.unwrap_or(Reference::zeros());
    let recorded = (number(list), number(list), number(list));
    let computed = (
        answer as u64,
        reference.lane.0 as u64,
        reference.block.0 as u64,
    );
    computed == recorded
}

// All cases.
pub(crate) fn replay<F: Files, W: Write>(rt: &F, out: &mut W) -> io::Result<()> {
    list::replay(rt, out, "positions", agrees)
}
