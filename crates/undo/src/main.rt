// Plays lists of outer products at every vector length, then the reversed lists with add and subtract exchanged, and
// counts the bytes of ZA that differ from the start. Refused words stand between the others.
#![tactic(auto)]

ghost use Rattle.std.specs.Prelude.{◌≡◌, ◌≤◌, length};

use checks::{Fill, differing, generate, next};
use machine::Bench;

const ALL_FEATURES: u32 = 15;

const LISTS: u32 = 36;

const LIST_WORDS: usize = 40;

// The lists and their words, how many words decode accepts, how many lists changed ZA on the way forward, and how many
// bytes of ZA differ after the way back.
#[derive(Clone, Copy, Default)]
pub struct Tally {
    pub lists: u64,
    pub words: u64,
    pub accepted: u64,
    pub changed: u64,
    pub differing: u64,
}

fn main() {
    for vb in [16, 32, 64, 128, 256] {
        report(vb);
    }
}

fn report(vb: usize)
    requires { vb ≤ 256 }
{
    let t = tally_at(vb);
    checks::print(format_args!(
        "VB {vb}: lists {}, words {}, accepted {}, lists that changed ZA {}, bytes that differ in the end {}\n",
        t.lists, t.words, t.accepted, t.changed, t.differing
    ));
}

// Makes the bench of the vector length and room for Z, P, ZA and ZA's start.
fn tally_at(vb: usize) -> Tally
    requires { vb ≤ 256 }
{
    let mut z = io::large_buffer();
    let mut p = io::buffer();
    let mut za = io::large_buffer();
    let mut start = io::large_buffer();
    let bench = Bench {
        flags: ALL_FEATURES,
        sm: true,
        za: true,
        vb,
    };
    let size = vb * vb;
    tally_lists(
        bench,
        &mut z[..32 * vb],
        &mut p[..2 * vb],
        &mut za[..size],
        &mut start[..size],
    )
}

// The bench and the buffers come one by one, here and below: `machine` takes them so, and would have a struct of them taken
// apart again at once.
fn tally_lists(bench: Bench, z: &mut [u8], p: &mut [u8], za: &mut [u8], start: &mut [u8]) -> Tally {
    let mut t = Tally::default();
    for seed in 0..LISTS {
        t.add(there_and_back(bench, seed, z, p, za, start));
    }
    t
}

impl Tally {
    fn add(&mut self, list: Tally) {
        self.lists = self.lists.wrapping_add(list.lists);
        self.words = self.words.wrapping_add(list.words);
        self.accepted = self.accepted.wrapping_add(list.accepted);
        self.changed = self.changed.wrapping_add(list.changed);
        self.differing = self.differing.wrapping_add(list.differing);
    }
}

// The tally of the list that a seed gives.
fn there_and_back(
    bench: Bench,
    seed: u32,
    z: &mut [u8],
    p: &mut [u8],
    za: &mut [u8],
    start: &mut [u8],
) -> Tally {
    let after_z = generate(seed, Fill::Any, z);
    let after_p = generate(after_z, Fill::Any, p);
    let fill = if seed % 2 == 1 { Fill::Ends } else { Fill::Any };
    let after_za = generate(after_p, fill, za);
    // ZA's bytes once more.
    generate(after_p, fill, start);
    let mut words = [0u32; LIST_WORDS];
    draw(after_za, &mut words);
    played(bench, z, p, za, start, &words)
}

fn played(bench: Bench, z: &[u8], p: &[u8], za: &mut [u8], start: &[u8], words: &[u32]) -> Tally {
    let mut back = [0u32; LIST_WORDS];
    undoing(bench, z, p, za, words, &mut back);
    machine::play(bench, z, p, za, words);
    let changed = differing(za, start) > 0;
    machine::play(bench, z, p, za, &back);
    Tally {
        lists: 1,
        words: words.len() as u64,
        accepted: accepted(words),
        changed: u64::from(changed),
        differing: differing(za, start),
    }
}

// The way back: the list reversed, with add and subtract exchanged.
fn undoing(bench: Bench, z: &[u8], p: &[u8], za: &[u8], words: &[u32], back: &mut [u32]) {
    for (slot, &word) in back.iter_mut().zip(words.iter().rev()) {
        *slot = machine::exchange(bench, z, p, za, word);
    }
}

fn accepted(words: &[u32]) -> u64 {
    words.iter().filter(|word| is_accepted(**word)).count() as u64
}

// With both modes on, a word is accepted if decode accepts it.
fn is_accepted(word: u32) -> bool {
    isa::decode(ALL_FEATURES, word).is_ok()
}

fn draw(x: u32, words: &mut [u32]) {
    let mut x = x;
    for word in words.iter_mut() {
        let y = next(x);
        let kind = next(y);
        x = next(kind);
        *word = word_of(kind / 65536 % 8, joined(y, x));
    }
}

// The upper halves of both: the generator's lower bits repeat soon.
fn joined(x: u32, y: u32) -> u32 {
    x / 65536 * 65536 + y / 65536
}

// A word with the fixed bits of a row of the encoding table, or a refused one.
fn word_of(kind: u32, free: u32) -> u32 {
    match kind {
        0 => 0xa080_0000 | (free & 0x013f_fff3),
        1 => 0xa0c0_0000 | (free & 0x013f_fff7),
        2 => 0x8000_8000 | (free & 0x013e_03d3),
        3 => 0xa0c0_0008 | (free & 0x013e_03d7),
        4 => 0xa080_0008 | (free & 0x011f_fff3),
        5 => 0x8000_8008 | (free & 0x011e_03d3),
        // The quarter-tile forms have 0 in bit 16.
        6 => 0xa0c1_0008 | (free & 0x013e_03d7),
        _ => free,
    }
}
