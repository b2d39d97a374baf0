// Capture files: a run as bytes. What a run takes, its bench, words, Z, P and ZA, is written to a file and read back.
#![tactic(auto)]

mod big_endian;
mod finder;
mod reader;
mod rooms;
mod writer;

use machine::Bench;
pub use reader::read;
pub use rooms::{file_room, predicates_room, tiles_room, vectors_room, words_room};
pub use writer::{modes_of, write};

// The byte at the front of every file.
const VERSION: u8 = 1;

// What a file holds beside the contents of the buffers: the bench, and the number of words.
#[derive(Clone, Copy)]
pub struct Contents {
    pub bench: Bench,
    pub words: usize,
}

// The numbers of bytes of a file's five parts.
#[derive(Clone, Copy)]
struct Parts {
    head: usize,
    words: usize,
    z: usize,
    p: usize,
    za: usize,
}
