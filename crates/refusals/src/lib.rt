// What the programs say of refusals: each as a person reads it, and how many words miss which features.
#![tactic(auto)]

mod counts;
mod meaning;

pub use counts::no_sums;
pub use meaning::Told;

// How many words miss which features, by the sum of their flags; no word of the table misses another sum than these five.
#[derive(Clone, Copy)]
pub struct Sums {
    pub sme: u64,
    pub i16i64: u64,
    pub mop4: u64,
    pub i16i64_mop4: u64,
    pub sme2: u64,
    pub others: u64,
}
