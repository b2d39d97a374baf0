// The word of a line of text: print, undone.
#![tactic(auto)]

mod guess;
mod line;

pub use line::read;

// What stands in an outer product's line, as far as it was read: whether a 64-bit tile, halfword elements or a predicate was
// named; the numbers of the last five operands, in their order, so that three of them stand from n2 on; and whether the
// last two are pairs.
#[derive(Clone, Copy, Default)]
pub(crate) struct Scan {
    wide: bool,
    half: bool,
    predicated: bool,
    n0: u32,
    n1: u32,
    n2: u32,
    n3: u32,
    number: u32,
    earlier: bool,
    pair: bool,
}
