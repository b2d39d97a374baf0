// What the programs share: their input, numbers and fields of a text, a stream of bytes, and counts of compared lines and bytes.
#![tactic(auto)]

mod counts;
mod output;
mod stdin;
mod stream;
mod text;

pub use counts::{count, differing, has};
pub use output::{eprint, print};
pub use stdin::{INPUT_ROOM, input_room, read_input};
pub use stream::{generate, next};
pub use text::{field_end, first, hexadecimal_of};

// What the programs read and write, by number.
pub const STDIN_FILENO: i32 = 0;

pub const STDOUT_FILENO: i32 = 1;

pub const STDERR_FILENO: i32 = 2;

// Why standard input was not read whole: it has more bytes than there is room for, or it can't be read to its end.
#[derive(Clone, Copy)]
pub enum InputError {
    TooLong,
    Unreadable,
}

// How many lines have something to compare, at how many of these it agrees, and how many others are no comments.
#[derive(Clone, Copy, Default)]
pub struct Tally {
    pub lines: u64,
    pub agreed: u64,
    pub malformed: u64,
}

// What comes of a line.
#[derive(Clone, Copy)]
pub enum Outcome {
    Agreed,
    Disagreed,
    Malformed,
    Comment,
}

// How a byte of the stream is used: as it is, or as one of those at which signed and unsigned reading part, or as 00 or
// FF, with which sums often carry out of an element.
#[derive(Clone, Copy)]
pub enum Fill {
    Any,
    Edges,
    Ends,
}
