// The 2-way forms of both families: two products of halfwords come to a 32-bit element.
use crate::bench::Case;
use crate::figures::Tally;
use crate::predicated::Sums;
use crate::quarter::{Corners, Quarters};
use crate::{bench, predicated, quarter, sources};

pub(crate) fn all(t: &mut Tally) {
    let p = bench::predicated(16, false, 0).as_two_way();
    let q = bench::quarter(16, false).as_two_way();
    signs(t, p);
    signs(t, q);
    // ZA3.S (7, 5) at VB 32 is byte 1012, ZA0.S (2, 3) at VB 16 byte 140
    let far = bench::predicated(32, false, 3).as_two_way();
    sources::ramp(t, far, 1012, 0x1d, 0x15, 0x131);
    sources::ramp(t, q, 140, 0x9, 0xd, 0x3b);
    // Twice F, and of elements 0, 2, 3 and 5 one in row or column 0 and both in row or column 1
    predicated::activity_of_halfwords(t, p, 16 * 4, 4, Sums(0x1e, 0xf, 0x1e));
    predicated::wraps(t, p, 4, 0xffff_ffff);
    pairs(t, q);
}

// All halfwords FFFF: twice 1, or FFFF·FFFF = FFFE0001, modulo 2^32; second source 0202: twice -202 or 201FDFE.
fn signs(t: &mut Tally, c: Case) {
    let u = c.with_signs(true, true);
    sources::all_ff(t, c, 0, 0x2);
    sources::all_ff(t, u, 0, 0xfffc_0002);
    sources::all_ff(t, c.subtracted(), 0, 0xffff_fffe);
    sources::all_ff(t, u.subtracted(), 0, 0x3_fffe);
    sources::ff_by_2(t, c, 0, 0xffff_fbfc);
    sources::ff_by_2(t, u, 0, 0x403_fbfc);
    sources::ff_by_2(t, c.subtracted(), 0, 0x404);
    sources::ff_by_2(t, u.subtracted(), 0, 0xfbfc_0404);
}

// Twice 1·3 = 6, 2·3 = C, 1·5 = A and 2·5 = 14, and their negatives.
fn pairs(t: &mut Tally, c: Case) {
    let sums = Quarters(0x6, 0xc, 0xa, 0x14);
    let negated = Quarters(0xffff_fffa, 0xffff_fff4, 0xffff_fff6, 0xffff_ffec);
    quarter::register_forms(t, c, Corners(8, 128, 136), sums, negated);
}
