// The accident as a check. A kernel is run on sums that an old run left, and on zeros. Where its ZERO is missing, or clears one
// tile too few, the run stops at the word that would have added to old sums; with all of ZA cleared first, it ends the same.
#![tactic(auto)]

use checks::{Fill, STDOUT_FILENO};
use isa::Refusal;
use machine::Bench;

const FLAGS: u32 = 15;

const BENCH: Bench = Bench {
    flags: FLAGS,
    sm: true,
    za: true,
    vb: 16,
};

const ZERO_ALL: u32 = 0xC008_00FF;

// The kernel of `assemble` without its ZEROs: outer products of each family and shape, on tiles that have every row of ZA.
const KERNEL: [u32; 6] = [
    0xA0A0_0000,
    0xA1CA_C537,
    0xA19F_95CB,
    0x811E_8352,
    0xA0F2_018C,
    0x8000_83D9,
];

fn main() {
    let mut z = [0u8; 512];
    checks::generate(1, Fill::Any, &mut z);
    let p = [0xFFu8; 32];
    run_from_both("without its zero", &z, &p, &KERNEL);
    one_tile_too_few(&z, &p);
    with_zero(&z, &p, ZERO_ALL);
    play_from_both(&z, &p);
}

// Each of the eight 64-bit tiles left out of the ZERO.
fn one_tile_too_few(z: &[u8], p: &[u8]) {
    for tile in 0..8u32 {
        with_zero(z, p, ZERO_ALL ^ (1 << tile));
    }
}

// The kernel behind a ZERO.
fn with_zero(z: &[u8], p: &[u8], zero: u32) {
    let words = [
        zero, KERNEL[0], KERNEL[1], KERNEL[2], KERNEL[3], KERNEL[4], KERNEL[5],
    ];
    write_text(zero);
    run_from_both(" first", z, p, &words);
}

// Runs words on old sums and on zeros: how many are executed and the refusal of the next, 0 for none, of both; how many bytes of
// ZA differ in the end; and the word that is refused.
fn run_from_both(name: &str, z: &[u8], p: &[u8], words: &[u32]) {
    let mut old = old_sums();
    let mut zeros = [0u8; 256];
    let ended = machine::run(BENCH, z, p, &mut old, words);
    let again = machine::run(BENCH, z, p, &mut zeros, words);
    let outcome = ended.outcome;
    let outcome_again = again.outcome;
    checks::print(format_args!(
        "{name}: executed {} of {}, refused {}; on zeros {}, refused {}",
        ended.count,
        words.len(),
        number_of(outcome),
        again.count,
        number_of(outcome_again)
    ));
    write_differing(&old, &zeros);
    write_stop(words, ended.count, outcome);
}

fn number_of(outcome: Result<(), Refusal>) -> u64 {
    match outcome {
        Ok(()) => 0,
        Err(r) => isa::number(r) as u64,
    }
}

// The word at which a run stopped, if it did: its place in the list, its text and the refusal.
fn write_stop(words: &[u32], place: usize, outcome: Result<(), Refusal>) {
    let Err(r) = outcome else {
        return;
    };
    let Some(&word) = words.get(place) else {
        return;
    };
    checks::print(format_args!("  stopped at word {}, ", place + 1));
    write_text(word);
    checks::print(format_args!("\n  refused {}\n", refusals::Told(r)));
}

// What the run prevents: the kernel without its ZERO, executed word by word.
fn play_from_both(z: &[u8], p: &[u8]) {
    let mut old = old_sums();
    let mut zeros = [0u8; 256];
    machine::play(BENCH, z, p, &mut old, &KERNEL);
    machine::play(BENCH, z, p, &mut zeros, &KERNEL);
    checks::print(format_args!("without its zero, word by word"));
    write_differing(&old, &zeros);
}

fn write_differing(old: &[u8], zeros: &[u8]) {
    checks::count(
        b"; bytes of ZA that differ: ",
        checks::differing(old, zeros),
    );
}

fn old_sums() -> [u8; 256] {
    let mut za = [0u8; 256];
    checks::generate(2, Fill::Any, &mut za);
    za
}

fn write_text(word: u32) {
    let mut room = [0u8; 47];
    if let Ok(n) = text::print(FLAGS, word, &mut room) {
        io::write_all(STDOUT_FILENO, checks::first(&room, n));
    }
}
