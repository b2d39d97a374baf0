// Runs the bench examples of document 01, some of the 2-way outer products, and words that miss features, and writes what
// comes of each: 0 or its refusal, with the sum beside 8, then what it left. The other refusals are shown at the end.
#![tactic(auto)]

ghost use Rattle.std.specs.Prelude.{◌≡◌, ◌+◌, ◌≤◌, length};
ghost use Rattle.machine.specs.Lists.{most_words};

use checks::STDOUT_FILENO;
use isa::{Instruction, Refusal};
use machine::Bench;
use refusals::Told;
use std::fmt;

// Document 01's flags where it gives none.
const FLAGS: u32 = 7;

const ALL_FEATURES: u32 = 15;

// Words on Z0, all of them with P0 unless the name says otherwise; USMOP4S takes Z16 beside it.
const SMOPA: u32 = 0xA080_0000;

const SUMOPA: u32 = 0xA0A0_0000;

const SUMOPS: u32 = 0xA0A0_0010;

const UMOPA: u32 = 0xA1A0_0000;

const UMOPA_P0_P1: u32 = 0xA1A0_2000;

const UMOPA_WIDE: u32 = 0xA1E0_0000;

const USMOP4S_WIDE: u32 = 0xA1C0_001F;

const ZERO_ALL: u32 = 0xC008_00FF;

const ZERO_ZA0_WIDE: u32 = 0xC008_0001;

const ZERO_ZA4_WIDE: u32 = 0xC008_0010;

// UMOPA on ZA1.S and on ZA5.D, with Z0 and Z1.
const UMOPA_ZA1: u32 = 0xA1A1_0001;

const UMOPA_ZA5_WIDE: u32 = 0xA1E1_0005;

// The 2-way forms: predicated ones on Z0, and a quarter-tile one on Z0 and Z16.
const SMOPA_TWO_WAY: u32 = 0xA080_0008;

const UMOPA_TWO_WAY: u32 = 0xA180_0008;

const UMOPS_TWO_WAY: u32 = 0xA180_0018;

const SMOP4S_TWO_WAY: u32 = 0x8000_8018;

// One word more than a run takes.
const LIST_ROOM: usize = machine::MOST_WORDS + 1;

fn main() {
    texts();
    words_executed();
    addresses();
    sums();
    carries();
    modes();
    features();
    lists();
    lengths();
    two_way_words();
    two_way_sums();
    meanings();
}

fn texts() {
    texts_of(
        FLAGS,
        &[
            0xA0A0_0010,
            0xA0B1_A873,
            0x811E_8352,
            0x8100_0010,
            0x8100_8010,
            0xA0E0_0018,
            0xA0E1_0018,
            0xA0E0_0038,
        ],
    );
    for flags in [0, 4, 6] {
        text_of(flags, USMOP4S_WIDE);
    }
    text_of(FLAGS, 0xC008_0100);
    tile_of(6, USMOP4S_WIDE);
}

// The words that the examples below execute, so that their names can be held against them.
fn words_executed() {
    texts_of(
        FLAGS,
        &[
            SMOPA,
            SUMOPA,
            SUMOPS,
            UMOPA,
            UMOPA_P0_P1,
            UMOPA_WIDE,
            UMOPA_ZA1,
            UMOPA_ZA5_WIDE,
            ZERO_ALL,
            ZERO_ZA0_WIDE,
            ZERO_ZA4_WIDE,
        ],
    );
}

fn two_way_words() {
    texts_of(
        ALL_FEATURES,
        &[
            SMOPA_TWO_WAY,
            UMOPA_TWO_WAY,
            UMOPS_TWO_WAY,
            SMOP4S_TWO_WAY,
            0x8100_8018,
            // No form has sources of different signs.
            0xA0A0_0008,
            0x8020_8008,
        ],
    );
    text_of(FLAGS, SMOPA_TWO_WAY);
    text_of(4, 0x8000_8008);
    text_of(16, SMOPA_TWO_WAY);
}

// Sources all FF, so that a product is 1 or 65,535 times itself; predicate bit 2·e alone decides on element e.
fn two_way_sums() {
    let z = [0xFFu8; 512];
    let p = [0xFFu8; 32];
    let bench = with_flags(ALL_FEATURES);
    example("smopa, 2-way", bench, &z, &p, 0, SMOPA_TWO_WAY);
    example("umopa, 2-way", bench, &z, &p, 0, UMOPA_TWO_WAY);
    example("umops, 2-way", bench, &z, &p, 0, UMOPS_TWO_WAY);
    example("smop4s, 2-way", bench, &z, &p, 0, SMOP4S_TWO_WAY);
    let even = [0x55u8; 32];
    example(
        "smopa, 2-way, even bits",
        bench,
        &z,
        &even,
        0,
        SMOPA_TWO_WAY,
    );
    let odd = [0xAAu8; 32];
    example("smopa, 2-way, odd bits", bench, &z, &odd, 0, SMOPA_TWO_WAY);
    example(
        "smopa, 2-way, without sme2",
        with_flags(FLAGS),
        &z,
        &p,
        0,
        SMOPA_TWO_WAY,
    );
}

// A single product of 1 comes to one element, and shows where that is.
fn addresses() {
    let p = [0xFFu8; 32];
    let mut z = [0u8; 512];
    example("zero of every tile", on(), &z, &p, 0xFF, ZERO_ALL);
    z[8] = 1;
    z[16 + 12] = 1;
    example("za1.s (2, 3)", on(), &z, &p, 0, UMOPA_ZA1);
    z[16 + 12] = 0;
    z[16 + 8] = 1;
    example("za5.d (1, 1)", on(), &z, &p, 0, UMOPA_ZA5_WIDE);
}

fn sums() {
    let z = [0xFFu8; 512];
    let p = [0xFFu8; 32];
    example("sumopa", on(), &z, &p, 0, SUMOPA);
    example("sumops", on(), &z, &p, 0, SUMOPS);
    example("umopa", on(), &z, &p, 0, UMOPA);
    let mut without_p0 = [0xFFu8; 32];
    without_p0[0] = 0;
    without_p0[1] = 0;
    example("umopa, pn empty", on(), &z, &without_p0, 0, UMOPA_P0_P1);
    let mut without_p1 = [0xFFu8; 32];
    without_p1[2] = 0;
    without_p1[3] = 0;
    example("umopa, pm empty", on(), &z, &without_p1, 0, UMOPA_P0_P1);
}

fn carries() {
    let z = plus_one();
    let p = [0xFFu8; 32];
    example("ffffffff plus 1", on(), &z, &p, 0xFF, UMOPA);
    in_turn("za0.s then za0.d", &z, &p, UMOPA, UMOPA_WIDE);
    in_turn("za0.d then za0.s", &z, &p, UMOPA_WIDE, UMOPA);
}

fn modes() {
    let z = plus_one();
    let p = [0xFFu8; 32];
    example(
        "zero, streaming off",
        modes_of(false, true),
        &z,
        &p,
        0xFF,
        ZERO_ALL,
    );
    example(
        "smopa, both off",
        modes_of(false, false),
        &z,
        &p,
        0xFF,
        SMOPA,
    );
    example(
        "zero, both off",
        modes_of(false, false),
        &z,
        &p,
        0xFF,
        ZERO_ALL,
    );
}

// What a word misses: printed, executed and in a run.
fn features() {
    text_of(14, UMOPA);
    text_of(2, 0x8100_8010);
    let z = plus_one();
    let p = [0xFFu8; 32];
    features_executed(&z, &p);
    list_example(
        "zero, umopa, then smopa, 2-way",
        &z,
        &p,
        &[ZERO_ALL, UMOPA, SMOPA_TWO_WAY],
    );
}

// 8 comes before the modes are tested.
fn features_executed(z: &[u8], p: &[u8]) {
    example("umopa, flags 14", with_flags(14), z, p, 0xFF, UMOPA);
    example("usmop4s, flags 0", with_flags(0), z, p, 0xFF, USMOP4S_WIDE);
    example("usmop4s, flags 4", with_flags(4), z, p, 0xFF, USMOP4S_WIDE);
    example(
        "smopa, 2-way, both off",
        modes_of(false, false),
        z,
        p,
        0xFF,
        SMOPA_TWO_WAY,
    );
}

// As C-16 and C-17 of document 02 amend the example; and lists on ZA0.S, which has the rows of ZA0.D and ZA4.D.
fn lists() {
    let z = plus_one();
    let p = [0xFFu8; 32];
    let words = zero_and_umopas();
    list_example("65536 words", &z, &p, all_but_last(&words));
    list_example("65537 words", &z, &p, &words);
    list_example("umopa, then zero", &z, &p, &[UMOPA, ZERO_ALL]);
    list_example("zero of za0.d, umopa", &z, &p, &[ZERO_ZA0_WIDE, UMOPA]);
    list_example(
        "zero of za0.d and of za4.d, umopa",
        &z,
        &p,
        &[ZERO_ZA0_WIDE, ZERO_ZA4_WIDE, UMOPA],
    );
}

// A Z with which an outer product of Z0 and Z0 adds 1 at (0, 0), in either width, and nothing elsewhere.
fn plus_one() -> [u8; 512]
    ensures { 512 ≡ length result }
{
    let mut z = [0u8; 512];
    z[0] = 1;
    z
}

// Storage of the sizes that the vector lengths would ask for.
fn lengths() {
    let z15 = [0u8; 480];
    let p15 = [0u8; 30];
    let mut za15 = [0xFFu8; 225];
    example_on(
        "vb 15",
        length_of(15),
        &z15,
        &p15,
        &mut za15,
        0xFF,
        ZERO_ALL,
    );
    let z17 = [0u8; 544];
    let p17 = [0u8; 34];
    let mut za17 = [0xFFu8; 289];
    example_on(
        "vb 17",
        length_of(17),
        &z17,
        &p17,
        &mut za17,
        0xFF,
        ZERO_ALL,
    );
}

fn on() -> Bench {
    Bench {
        flags: FLAGS,
        sm: true,
        za: true,
        vb: 16,
    }
}

fn modes_of(sm: bool, za: bool) -> Bench {
    Bench { sm, za, ..on() }
}

fn with_flags(flags: u32) -> Bench {
    Bench { flags, ..on() }
}

fn length_of(vb: usize) -> Bench {
    Bench { vb, ..on() }
}

// Apart, so that proofs take the array by its length alone: it is too long to compute with.
fn zero_and_umopas() -> [u32; LIST_ROOM]
    ensures { most_words + 1 ≡ length result }
{
    let mut words = [UMOPA; LIST_ROOM];
    words[0] = ZERO_ALL;
    words
}

// What a person is told of the refusals that no example gets.
fn meanings() {
    for r in [
        Refusal::ZLength,
        Refusal::PLength,
        Refusal::ZaLength,
        Refusal::OutOfRange,
        Refusal::Room,
        Refusal::NotText,
        Refusal::Version,
        Refusal::Format,
    ] {
        checks::print(format_args!("{}\n", Refused(r)));
    }
}

// The texts of words, each on a line.
fn texts_of(flags: u32, words: &[u32]) {
    for &word in words {
        text_of(flags, word);
    }
}

// A word's text, or its refusal.
fn text_of(flags: u32, word: u32) {
    io::print_hex(STDOUT_FILENO, u64::from(word), 8);
    checks::print(format_args!(", flags {flags}: "));
    let mut room = [0u8; 47];
    match text::print(flags, word, &mut room) {
        Ok(n) => io::write_all(STDOUT_FILENO, checks::first(&room, n)),
        Err(r) => checks::print(format_args!("{}", Refused(r))),
    };
    checks::print("\n");
}

// The tile of an outer product.
fn tile_of(flags: u32, word: u32) {
    io::print_hex(STDOUT_FILENO, u64::from(word), 8);
    checks::print(format_args!(", flags {flags}: "));
    match isa::decode(flags, word) {
        Ok(i) => checks::print(format_args!("tile {}\n", tile_number(i))),
        Err(r) => checks::print(format_args!("{}\n", Refused(r))),
    };
}

fn tile_number(i: Instruction) -> u32 {
    match i {
        Instruction::Predicated(p) => p.tile.0,
        Instruction::Quarter(q) => q.tile.0,
        Instruction::Zero(_) => 8,
    }
}

// Executes a word at VB 16 on a ZA whose bytes all start the same. The parameters of the examples stand one by one: a call is
// a row of its figures, and a struct would only name what the row shows.
fn example(name: &str, bench: Bench, z: &[u8], p: &[u8], start: u8, word: u32) {
    let mut za = [start; 256];
    example_on(name, bench, z, p, &mut za, start, word);
}

// Executes a word on ZA: what it answers, which bytes differ then from the start, and element (0, 0) of ZA0.S.
fn example_on(name: &str, bench: Bench, z: &[u8], p: &[u8], za: &mut [u8], start: u8, word: u32) {
    let outcome = machine::execute(bench, z, p, za, word);
    let n = changed(za, start);
    checks::print(format_args!("{name}: {}, changed {n}", Answer(outcome)));
    if 0 < n {
        checks::print(format_args!(" from {}", first_changed(za, start)));
    }
    let e = element32(za, 0);
    checks::print(format_args!(", za0.s (0, 0) "));
    io::print_hex(STDOUT_FILENO, u64::from(e), 8);
    checks::print(format_args!(" = {e}\n"));
}

// Executes two words on a ZA whose ZA0.D (0, 0) is 00000000ffffffff; that element then.
fn in_turn(name: &str, z: &[u8], p: &[u8], one: u32, two: u32) {
    let mut za = [0u8; 256];
    za[..4].fill(0xFF);
    in_turn_on(name, z, p, &mut za, one, two);
}

fn in_turn_on(name: &str, z: &[u8], p: &[u8], za: &mut [u8], one: u32, two: u32) {
    let first = machine::execute(on(), z, p, za, one);
    let second = machine::execute(on(), z, p, za, two);
    checks::print(format_args!("{name}: {}, {}, ", Answer(first), Answer(second)));
    io::print_hex(STDOUT_FILENO, u64::from(element32(za, 4)), 8);
    io::print_hex(STDOUT_FILENO, u64::from(element32(za, 0)), 8);
    checks::print("\n");
}

// Runs a list from a ZA of zeros; its count, its answer and element (0, 0) of ZA0.S.
fn list_example(name: &str, z: &[u8], p: &[u8], words: &[u32]) {
    let mut za = [0u8; 256];
    let ended = machine::run(on(), z, p, &mut za, words);
    checks::print(format_args!(
        "{name}: count {}, {}, za0.s (0, 0) {}\n",
        ended.count,
        Answer(ended.outcome),
        element32(&za, 0)
    ));
}

// 0, or the refusal.
#[derive(Clone, Copy)]
struct Answer(Result<(), Refusal>);

impl fmt::Display for Answer {
    fn fmt<W: fmt::Write>(&self, f: &mut fmt::Formatter<W>) -> fmt::Result {
        match self.0 {
            Ok(()) => write!(f, "0"),
            Err(r) => write!(f, "{}", Refused(r)),
        }
    }
}

// A refusal in words, and the sum beside 8.
#[derive(Clone, Copy)]
struct Refused(Refusal);

impl fmt::Display for Refused {
    fn fmt<W: fmt::Write>(&self, f: &mut fmt::Formatter<W>) -> fmt::Result {
        write!(f, "refused {}", Told(self.0))?;
        let missing = isa::missing_in(self.0);
        if missing == 0 {
            return Ok(());
        }
        write!(f, ", missing {missing}")
    }
}

fn all_but_last(words: &[u32]) -> &[u32] {
    &words[..words.len().saturating_sub(1)]
}

// How many bytes are not the value.
fn changed(s: &[u8], value: u8) -> usize {
    s.iter().filter(|byte| **byte != value).count()
}

// The first byte that is not the value, or the length.
fn first_changed(s: &[u8], value: u8) -> usize {
    s.iter().position(|byte| *byte != value).unwrap_or(s.len())
}

// Four bytes, little-endian.
fn element32(s: &[u8], at: usize) -> u32 {
    match s.get(at..) {
        Some([a, b, c, d, ..]) => u32::from_le_bytes([*a, *b, *c, *d]),
        _ => 0,
    }
}
