// The predicated family (document 004).
use crate::bench::Case;
use crate::figures::Tally;
use crate::{bench, figures, sources};

pub(crate) fn all(t: &mut Tally) {
    sources::all_signs(t, bench::predicated(16, false, 0), 0);
    sources::all_signs(t, bench::predicated(32, false, 3), 96);
    sources::all_signs(t, bench::predicated(16, true, 0), 0);
    sources::all_signs(t, bench::predicated(32, true, 7), 224);
    ramps(t);
    activity32(t, bench::predicated(16, false, 0), 16 * 4);
    activity32(t, bench::predicated(32, false, 0), 32 * 4);
    activity64(t, bench::predicated(16, true, 0), 16 * 8);
    activity64(t, bench::predicated(32, true, 0), 32 * 8);
    empty(t, bench::predicated(16, false, 0));
    empty(t, bench::predicated(32, true, 0));
    wraps(t, bench::predicated(16, false, 0), 4, 0xffff_ffff);
    wraps(t, bench::predicated(32, false, 0), 4, 0xffff_ffff);
    wraps(t, bench::predicated(16, true, 0), 8, 0xffff_ffff_ffff_ffff);
    wraps(t, bench::predicated(32, true, 0), 8, 0xffff_ffff_ffff_ffff);
    rows(t);
    overlap(t, 16);
    overlap(t, 32);
}

// Places of elements in ZA; the figures are those of `ramp`.
fn ramps(t: &mut Tally) {
    // ZA1.S (2, 3) at VB 16: row 2·4 + 1 = 9 of ZA, 9·16 + 3·4 = 156
    sources::ramp(t, bench::predicated(16, false, 1), 156, 0x26, 0x36, 0x206);
    // ZA3.S (7, 5) at VB 32: row 31, 31·32 + 5·4 = 1012
    sources::ramp(t, bench::predicated(32, false, 3), 1012, 0x76, 0x56, 0x9ee);
    // ZA5.D (1, 1) at VB 16: row 1·8 + 5 = 13, 13·16 + 1·8 = 216
    sources::ramp(t, bench::predicated(16, true, 5), 216, 0x16, 0x16, 0x7e);
    // ZA7.D (3, 2) at VB 32: row 31, 31·32 + 2·8 = 1008
    sources::ramp(t, bench::predicated(32, true, 7), 1008, 0x36, 0x26, 0x206);
}

// Runs on registers of 3 and of 5, so that a product is F, with the first two bytes of each predicate, and those again.
fn run_under(c: Case, pn: u16, pm: u16, za: &mut [u8]) {
    let mut z = [0u8; 1024];
    let mut p = [0u8; 64];
    bench::set_elements(&mut z, c, 1, 3);
    bench::set_elements(&mut z, c, 2, 5);
    bench::set_row(&mut p, c.vb / 8, 1, (pn % 256) as u8, (pn / 256) as u8);
    bench::set_row(&mut p, c.vb / 8, 2, (pm % 256) as u8, (pm / 256) as u8);
    bench::run(c, &z, &p, za);
}

// The parameters of this and the other figures stand one by one: a call is a row of its figures, as the documents give them.
fn under(t: &mut Tally, c: Case, what: &str, pn: u16, pm: u16, byte: usize, expected: u64) {
    let mut za = [0u8; 1024];
    run_under(c, pn, pm, &mut za);
    t.element(c, what, &za, byte, expected);
}

// Pn 005A: of row 0 products 1 and 3 count, of row 1 products 0 and 2. Pm 00FC: of column 0 products 2 and 3, of column 1
// all.
fn activity32(t: &mut Tally, c: Case, row1: usize) {
    under(t, c, "pn 005a pm 00fc", 0x5a, 0xfc, 0, 0xf);
    under(t, c, "pn 005a pm 00fc", 0x5a, 0xfc, 4, 0x1e);
    under(t, c, "pn 005a pm 00fc", 0x5a, 0xfc, row1, 0xf);
    let s = c.subtracted();
    under(t, s, "pn 005a pm 00ff", 0x5a, 0xff, row1, 0xffff_ffe2);
}

// Of four products all count, three in row or column 0 under 0453, and one in row or column 1.
fn activity64(t: &mut Tally, c: Case, row1: usize) {
    activity_of_halfwords(t, c, row1, 8, Sums(0x3c, 0x2d, 0xf));
}

// What comes to an element where all products count, and under 0453 in row or column 0 and in row or column 1.
#[derive(Clone, Copy)]
pub struct Sums(pub u64, pub u64, pub u64);

// Bit 2·e governs element e: 5555 is all, AAAA none. Of 0453 bits 0, 4, 6 and 10 are elements 0, 2, 3 and 5, and bit 1 is
// none.
pub(crate) fn activity_of_halfwords(t: &mut Tally, c: Case, row1: usize, col1: usize, sums: Sums) {
    under(t, c, "pn 5555 pm ffff", 0x5555, 0xffff, 0, sums.0);
    under(t, c, "pn ffff pm 5555", 0xffff, 0x5555, 0, sums.0);
    under(t, c, "pn aaaa pm ffff", 0xaaaa, 0xffff, 0, 0);
    under(t, c, "pn ffff pm aaaa", 0xffff, 0xaaaa, 0, 0);
    under(t, c, "pn 0453 pm ffff", 0x0453, 0xffff, 0, sums.1);
    under(t, c, "pn 0453 pm ffff", 0x0453, 0xffff, row1, sums.2);
    under(t, c, "pn ffff pm 0453", 0xffff, 0x0453, col1, sums.2);
}

// One predicate empty: no byte of the 1,024 changes.
fn empty(t: &mut Tally, c: Case) {
    let mut za = [0x11; 1024];
    run_under(c, 0, 0xffff, &mut za);
    t.bytes(
        c,
        "pn 0000 pm ffff, bytes kept",
        figures::count_of(&za, 0x11),
        0x400,
    );
    run_under(c, 0xffff, 0, &mut za);
    t.bytes(
        c,
        "pn ffff pm 0000, bytes kept",
        figures::count_of(&za, 0x11),
        0x400,
    );
}

// Sources of ones of which the first elements alone are active: 1 comes to element (0, 0), and to no other.
fn one_more(c: Case, za: &mut [u8]) {
    let mut z = [0u8; 1024];
    let mut p = [0u8; 64];
    bench::set_row(&mut z, c.vb, 1, 1, 0);
    bench::set_row(&mut z, c.vb, 2, 1, 0);
    bench::set_byte(&mut p, c.vb / 8, 1);
    bench::set_byte(&mut p, c.vb / 4, 1);
    bench::run(c, &z, &p, za);
}

// All ones plus 1 is 0, and 0 minus 1 is all ones again; no other byte of ZA changes.
pub(crate) fn wraps(t: &mut Tally, c: Case, size: usize, ones: u64) {
    let mut za = [0xff; 1024];
    one_more(c, &mut za);
    t.element(c, "ones plus 1", &za, 0, 0);
    t.element(c, "ones plus 1", &za, size, ones);
    t.bytes(
        c,
        "ones plus 1, bytes cleared",
        figures::count_of(&za, 0),
        size as u64,
    );
    let s = c.subtracted();
    one_more(s, &mut za);
    t.element(s, "0 minus 1", &za, 0, ones);
    t.bytes(s, "0 minus 1, bytes cleared", figures::count_of(&za, 0), 0);
}

// ZA1.S at VB 16 has rows 1, 5, 9 and 13 of ZA, 64 bytes; the rows beside them stay.
fn rows(t: &mut Tally) {
    let mut za = [0u8; 1024];
    let c = bench::predicated(16, false, 1).with_signs(false, true);
    bench::run(c, &[0xff; 1024], &[0xff; 64], &mut za);
    row_ends(t, c, &za);
}

fn row_ends(t: &mut Tally, c: Case, za: &[u8]) {
    t.element(c, "all ff", za, 12, 0);
    t.element(c, "all ff", za, 16, 0xffff_fc04);
    t.element(c, "all ff", za, 28, 0xffff_fc04);
    t.element(c, "all ff", za, 32, 0);
    t.element(c, "all ff", za, 208, 0xffff_fc04);
    t.bytes(
        c,
        "all ff, bytes left 0",
        figures::count_of(za, 0),
        1024 - 64,
    );
}

// ZA0.D (0, 0) at 00000000FFFFFFFF shares its bytes with ZA0.S (0, 0) and (0, 1): the 32-bit sum drops its carry, the
// 64-bit one keeps it.
fn overlap(t: &mut Tally, vb: usize) {
    let s = bench::predicated(vb, false, 0);
    let d = bench::predicated(vb, true, 0);
    let mut za = [0u8; 1024];
    bench::set_row(&mut za, 4, 0, 0xff, 0xff);
    one_more(s, &mut za);
    one_more(d, &mut za);
    t.element(d, "after za0.s", &za, 0, 1);
    bench::set_row(&mut za, 4, 0, 0xff, 0xff);
    bench::set_row(&mut za, 4, 1, 0, 0);
    one_more(d, &mut za);
    one_more(s, &mut za);
    t.element(d, "before za0.s", &za, 0, 0x1_0000_0001);
}
