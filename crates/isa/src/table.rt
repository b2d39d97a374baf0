// The lines of the table by their fixed bits: the line that a word is of, and the word of a line.
ghost use Rattle.std.specs.Prelude.{◌≡◌, ◌==◌, bit_and};
ghost use Rattle.isa.specs.Table.{table};
ghost use Rattle.isa.specs.Answers.{lookup};
ghost use Rattle.isa.specs.Lines.{found};

use crate::{Line, Shape};

// What a line fixes: a mask of its fixed bits, and its word where every field is 0.
#[derive(Clone, Copy)]
pub struct Fixed {
    pub mask: u32,
    pub word: u32,
}

pub(crate) const PREDICATED32: Fixed = Fixed {
    mask: 0xfec0_000c,
    word: 0xa080_0000,
};

pub(crate) const PREDICATED64: Fixed = Fixed {
    mask: 0xfec0_0008,
    word: 0xa0c0_0000,
};

pub(crate) const QUARTER32: Fixed = Fixed {
    mask: 0xfec1_fc2c,
    word: 0x8000_8000,
};

pub(crate) const QUARTER64: Fixed = Fixed {
    mask: 0xfec1_fc28,
    word: 0xa0c0_0008,
};

pub(crate) const ZERO: Fixed = Fixed {
    mask: 0xffff_ff00,
    word: 0xc008_0000,
};

pub(crate) const PREDICATED_TWO_WAY: Fixed = Fixed {
    mask: 0xfee0_000c,
    word: 0xa080_0008,
};

pub(crate) const QUARTER_TWO_WAY: Fixed = Fixed {
    mask: 0xfee1_fc2c,
    word: 0x8000_8008,
};

// The line that a word is of. A search through a list of lines would be no plainer: the definition's table is a list already, and
// each line's test would be held against it all the same.
pub(crate) fn line_of(word: u32) -> Option<Line>
    ensures { found result ≡ lookup table word }
{
    if has(word, PREDICATED32) {
        return Some(Line::Predicated(Shape::Bytes32));
    }
    if has(word, PREDICATED64) {
        return Some(Line::Predicated(Shape::Halves64));
    }
    if has(word, QUARTER32) {
        return Some(Line::Quarter(Shape::Bytes32));
    }
    if has(word, QUARTER64) {
        return Some(Line::Quarter(Shape::Halves64));
    }
    if has(word, ZERO) {
        return Some(Line::Zero);
    }
    if has(word, PREDICATED_TWO_WAY) {
        return Some(Line::Predicated(Shape::Halves32));
    }
    if has(word, QUARTER_TWO_WAY) {
        return Some(Line::Quarter(Shape::Halves32));
    }
    None
}

// Whether a word has the fixed bits.
fn has(word: u32, fixed: Fixed) -> bool
    ensures { result ≡ (bit_and word fixed.mask == fixed.word) }
{
    word & fixed.mask == fixed.word
}
