// Outer products on tiles of ZA, without instruction words: what Arm's pseudocode adds to each element.
#![tactic(auto)]

mod clear;
mod plain;
mod product;
mod source;
mod task;
mod walk;

pub use clear::clear_tiles;
use isa::{Predicate, Tile, Vector};
pub use plain::update_plainly;
pub use walk::update;

// Which elements of a source count: all of them, or those that its governing predicate has.
#[derive(Clone, Copy)]
pub enum Predication {
    Unpredicated,
    By(Predicate),
}

// A source: its register for the first and the second half of the tile's columns or rows, which of its elements count, and
// how they are read.
#[derive(Clone, Copy)]
pub struct Operand {
    pub low: Vector,
    pub high: Vector,
    pub predication: Predication,
    pub unsigned: bool,
}

// An outer product: the bytes of a tile element and how many products come to it, its tile and sources, and whether it
// subtracts. The sizes are numbers, and no enum of three shapes: the laws (`element_add`) are over any, and `Shaped` says which there are.
#[derive(Clone, Copy)]
pub struct OuterProduct {
    pub element: usize,
    pub products: usize,
    pub tile: Tile,
    pub first: Operand,
    pub second: Operand,
    pub subtract: bool,
}
