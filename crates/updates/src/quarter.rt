// The quarter-tile family (document 003).
use crate::bench::Case;
use crate::figures::Tally;
use crate::{bench, sources};

// Where the upper right, the lower left and the lower right quarter of tile 0 start in ZA.
#[derive(Clone, Copy)]
pub struct Corners(pub usize, pub usize, pub usize);

// An element of the upper left, the upper right, the lower left and the lower right quarter.
#[derive(Clone, Copy)]
pub struct Quarters(pub u64, pub u64, pub u64, pub u64);

pub(crate) fn all(t: &mut Tally) {
    sources::all_signs(t, bench::quarter(16, false), 0);
    sources::all_signs(t, bench::quarter(32, false), 0);
    sources::all_signs(t, bench::quarter(16, true), 0);
    sources::all_signs(t, bench::quarter(32, true), 0);
    ramps(t);
    // Half of 4 rows and columns of 4 bytes, of 8, and of 2 and of 4 of 8 bytes
    pairs(t, bench::quarter(16, false), Corners(8, 128, 136));
    pairs(t, bench::quarter(32, false), Corners(16, 512, 528));
    pairs(t, bench::quarter(16, true), Corners(8, 128, 136));
    pairs(t, bench::quarter(32, true), Corners(16, 512, 528));
    inner_corners(t);
}

// Element numbers run over the whole tile: the figures are those of the predicated forms.
fn ramps(t: &mut Tally) {
    // ZA0.S (2, 3) at VB 16: row 8 of ZA, 8·16 + 3·4 = 140; (7, 5) at VB 32: 28·32 + 5·4 = 916
    sources::ramp(t, bench::quarter(16, false), 140, 0x26, 0x36, 0x206);
    sources::ramp(t, bench::quarter(32, false), 916, 0x76, 0x56, 0x9ee);
    // ZA0.D (1, 1) at VB 16: row 8 of ZA, 8·16 + 8 = 136; (3, 2) at VB 32: 24·32 + 2·8 = 784
    sources::ramp(t, bench::quarter(16, true), 136, 0x16, 0x16, 0x7e);
    sources::ramp(t, bench::quarter(32, true), 784, 0x36, 0x26, 0x206);
}

// Registers 2 and 3 hold ones and twos, 18 and 19 threes and fives.
fn run(c: Case, za: &mut [u8]) {
    let mut z = [0u8; 1024];
    bench::set_elements(&mut z, c, 2, 1);
    bench::set_elements(&mut z, c, 3, 2);
    bench::set_elements(&mut z, c, 18, 3);
    bench::set_elements(&mut z, c, 19, 5);
    bench::run(c, &z, &[0; 64], za);
}

// Four times 1·3 = C, 2·3 = 18, 1·5 = 14 and 2·5 = 28.
fn pairs(t: &mut Tally, c: Case, at: Corners) {
    let sums = Quarters(0xc, 0x18, 0x14, 0x28);
    register_forms(t, c, at, sums, negated(c.wide));
}

// -C, -18, -14 and -28 in 32 and in 64 bits.
fn negated(wide: bool) -> Quarters {
    if wide {
        return Quarters(
            0xffff_ffff_ffff_fff4,
            0xffff_ffff_ffff_ffe8,
            0xffff_ffff_ffff_ffec,
            0xffff_ffff_ffff_ffd8,
        );
    }
    Quarters(0xffff_fff4, 0xffff_ffe8, 0xffff_ffec, 0xffff_ffd8)
}

// Two pairs, added and subtracted, and single registers: the first source's goes by the column half, the second's by the row
// half, and a source of one register has it in both.
pub(crate) fn register_forms(
    t: &mut Tally,
    c: Case,
    at: Corners,
    sums: Quarters,
    negated: Quarters,
) {
    let both = c.with_pairs(true, true);
    let first = c.with_pairs(true, false);
    let second = c.with_pairs(false, true);
    each_quarter(t, both, at, sums);
    each_quarter(t, first, at, Quarters(sums.0, sums.1, sums.0, sums.1));
    each_quarter(t, second, at, Quarters(sums.0, sums.0, sums.2, sums.2));
    each_quarter(t, c, at, Quarters(sums.0, sums.0, sums.0, sums.0));
    each_quarter(t, both.subtracted(), at, negated);
}

fn each_quarter(t: &mut Tally, c: Case, at: Corners, expected: Quarters) {
    let mut za = [0u8; 1024];
    run(c, &mut za);
    t.element(c, "1 or 2 by 3 or 5", &za, 0, expected.0);
    t.element(c, "1 or 2 by 3 or 5", &za, at.0, expected.1);
    t.element(c, "1 or 2 by 3 or 5", &za, at.1, expected.2);
    t.element(c, "1 or 2 by 3 or 5", &za, at.2, expected.3);
}

// Where the quarters of ZA0.S meet at VB 16: (1, 1), (1, 2), (2, 1) and (2, 2), in rows 4 and 8 of ZA.
fn inner_corners(t: &mut Tally) {
    let mut za = [0u8; 1024];
    let c = bench::quarter(16, false).with_pairs(true, true);
    run(c, &mut za);
    t.element(c, "1 or 2 by 3 or 5", &za, 4 * 16 + 4, 0xc);
    t.element(c, "1 or 2 by 3 or 5", &za, 4 * 16 + 8, 0x18);
    t.element(c, "1 or 2 by 3 or 5", &za, 8 * 16 + 4, 0x14);
    t.element(c, "1 or 2 by 3 or 5", &za, 8 * 16 + 8, 0x28);
}
