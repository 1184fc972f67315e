// The next message of the listing program's input, cut by its length field.
#![tactic(auto)]

pub mod limits;

ghost use Rattle.listing_cut.specs.Cut.{IsCut};

use crate::limits::{LENGTH_SIZE, LONGEST_CUT, SHORTEST_CUT};
use buffer_reads::get_u16;
use layout::LENGTH_AT;

// Cuts the next message, and answers its size: a length outside 48..200 or past the end is wrong, and so is a rest without a length.
#[tactic(auto, using(crate::proofs::Cuts::cuts))]
pub fn read_cut(rest: &[u8]) -> Option<usize>
    ensures { IsCut rest.now result }
{
    if rest.len() < LENGTH_AT + LENGTH_SIZE {
        return None;
    }
    let size = get_u16(rest, LENGTH_AT) as usize;
    if size < SHORTEST_CUT || LONGEST_CUT < size || rest.len() < size {
        return None;
    }
    Some(size)
}
