// Executes instruction words on a bench: one word, a run of a list, a list word by word.
#![tactic(auto)]

mod admission;
mod clearing;
mod executor;
mod lists;
mod operands;
mod reversal;

pub use executor::execute;
pub use lists::{MOST_WORDS, check_run, play, run};
pub use reversal::exchange;

// The bench: the feature flags, streaming mode (PSTATE.SM) and ZA (PSTATE.ZA) on or off, and the vector length in bytes. Z, P and ZA
// are passed beside it: ZA alone is lent to be written, and a struct of all would be made anew for each call.
#[derive(Clone, Copy)]
pub struct Bench {
    pub flags: u32,
    pub sm: bool,
    pub za: bool,
    pub vb: usize,
}

// The modes that an instruction needs on.
#[derive(Clone, Copy)]
pub struct Modes {
    pub streaming: bool,
    pub za: bool,
}

// A run: how many words were executed, and how it ended.
#[derive(Clone, Copy)]
pub struct Ended {
    pub count: usize,
    pub outcome: Result<(), isa::Refusal>,
}
