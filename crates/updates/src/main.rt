// Runs small updates of tiles at vector lengths of 16 and 32 bytes, and compares what they leave in ZA with figures
// worked out by hand from Arm's pseudocode (documents 003 and 004, and the pages of the 2-way forms).
#![tactic(auto)]

mod bench;
mod clearing;
mod figures;
mod predicated;
mod quarter;
mod sources;
mod two_way;

use figures::Tally;

fn main() {
    let mut t = Tally::default();
    predicated::all(&mut t);
    quarter::all(&mut t);
    two_way::all(&mut t);
    clearing::all(&mut t);
    t.report();
}
