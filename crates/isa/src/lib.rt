// Which words are instructions, and which instruction each is: Arm's encoding table, both ways.
#![tactic(auto)]

mod decoder;
mod encoder;
mod numbers;
mod sizes;
mod table;

pub use decoder::{ALL_FLAGS, check, decode, flags_legal, source_of};
pub use encoder::{encode, is_pair, register_of};
pub use numbers::{missing_in, number};
pub use sizes::{element_bytes, products, source_bytes};

// Numbers of tiles, vectors and predicates: kinds that can't stand for one another.
#[derive(Clone, Copy, PartialEq, Eq)]
pub struct Tile(pub u32);

#[derive(Clone, Copy, PartialEq, Eq)]
pub struct Vector(pub u32);

#[derive(Clone, Copy, PartialEq, Eq)]
pub struct Predicate(pub u32);

// A quarter-tile source: one register, or a pair of neighbours given by its first.
#[derive(Clone, Copy)]
pub enum Source {
    One(Vector),
    Pair(Vector),
}

// What an outer product does: on a 64-bit tile (wide) or a 32-bit one, by two products an element (two_way) or four, with
// its first (u0) and its second (u1) source read as unsigned, added or subtracted. wide and two_way stand apart, and are no Shape,
// so that what is both can be written down and refused (`encodes .gives_11`).
#[derive(Clone, Copy)]
pub struct Operation {
    pub wide: bool,
    pub two_way: bool,
    pub u0: bool,
    pub u1: bool,
    pub subtract: bool,
}

// An outer product of two vectors, each governed by a predicate.
#[derive(Clone, Copy)]
pub struct PredicatedProduct {
    pub op: Operation,
    pub tile: Tile,
    pub pn: Predicate,
    pub pm: Predicate,
    pub zn: Vector,
    pub zm: Vector,
}

// An outer product of two quarter-tile sources.
#[derive(Clone, Copy)]
pub struct QuarterProduct {
    pub op: Operation,
    pub tile: Tile,
    pub first: Source,
    pub second: Source,
}

// The description of a word; ZERO's is its mask of 64-bit tiles.
#[derive(Clone, Copy)]
pub enum Instruction {
    Predicated(PredicatedProduct),
    Quarter(QuarterProduct),
    Zero(u8),
}

// The shapes of the table's outer products: bytes or halfwords on a 32-bit tile, halfwords on a 64-bit one.
#[derive(Clone, Copy)]
pub enum Shape {
    Bytes32,
    Halves64,
    Halves32,
}

// A line of the table: a family of outer products and their shape, or ZERO.
#[derive(Clone, Copy)]
pub enum Line {
    Predicated(Shape),
    Quarter(Shape),
    Zero,
}

// Why input is refused; `number` gives each its number, and each function says which it tests, and in which order. A word
// that needs a feature that is off is refused with the sum of the flags that it misses.
#[derive(Clone, Copy, PartialEq, Eq)]
pub enum Refusal {
    Flags,
    VectorLength,
    ZLength,
    PLength,
    ZaLength,
    ListLength,
    Unlisted,
    FeatureOff { missing: u32 },
    StreamingOff,
    ZaOff,
    OutOfRange,
    Room,
    NotText,
    NotCleared,
    Version,
    Format,
}
