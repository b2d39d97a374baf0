// What both families add from sources that all elements, or all of a row or column, have alike.
use crate::bench;
use crate::bench::Case;
use crate::figures::Tally;

// All bytes FF: four times (-1)(-1) = 1, (-1)255 or 255(-1) = -FF, 255·255 = FE01; subtracted, the negatives. First source
// FF, second 02: four times (-1)2 = -2 or 255·2 = 1FE.
const SIGNS_32: Signs = Signs {
    added: [0x4, 0xffff_fc04, 0x3_f804],
    subtracted: [0xffff_fffc, 0x3fc, 0xfffc_07fc],
    by_2: [0xffff_fff8, 0x7f8, 0xffff_f808],
};

// All halfwords FFFF: four times 1, -FFFF or FFFF·FFFF = FFFE0001; subtracted, the negatives. First source FFFF, second 0202:
// four times (-1)514 = -202 or 65535·514 = 201FDFE.
const SIGNS_64: Signs = Signs {
    added: [0x4, 0xffff_ffff_fffc_0004, 0x3_fff8_0004],
    subtracted: [0xffff_ffff_ffff_fffc, 0x3_fffc, 0xffff_fffc_0007_fffc],
    by_2: [0xffff_ffff_ffff_f7f8, 0x807_f7f8, 0xffff_ffff_f7f8_0808],
};

// What comes to an element of four products: of all bytes FF where both sources are signed, where one is, and where none is,
// added and subtracted; and of FF by 02 where the first source is signed, where it isn't, and there subtracted.
#[derive(Clone, Copy)]
struct Signs {
    added: [u64; 3],
    subtracted: [u64; 3],
    by_2: [u64; 3],
}

pub(crate) fn all_signs(t: &mut Tally, c: Case, byte: usize) {
    let expected = if c.wide { SIGNS_64 } else { SIGNS_32 };
    all_ff_by_signs(t, c, byte, expected.added);
    all_ff_by_signs(t, c.subtracted(), byte, expected.subtracted);
    one_sign(t, c, byte, expected.by_2);
}

fn one_sign(t: &mut Tally, c: Case, byte: usize, expected: [u64; 3]) {
    let [signed, unsigned, subtracted] = expected;
    ff_by_2(t, c, byte, signed);
    ff_by_2(t, c.with_signs(false, true), byte, signed);
    ff_by_2(t, c.with_signs(true, false), byte, unsigned);
    ff_by_2(t, c.subtracted().with_signs(true, true), byte, subtracted);
}

// All bytes FF, where both sources are signed, where one is, and where none is.
fn all_ff_by_signs(t: &mut Tally, c: Case, byte: usize, expected: [u64; 3]) {
    let [signed, mixed, unsigned] = expected;
    all_ff(t, c, byte, signed);
    all_ff(t, c.with_signs(false, true), byte, mixed);
    all_ff(t, c.with_signs(true, false), byte, mixed);
    all_ff(t, c.with_signs(true, true), byte, unsigned);
}

pub(crate) fn all_ff(t: &mut Tally, c: Case, byte: usize, expected: u64) {
    after(t, c, "all ff", &[0xff; 1024], byte, expected)
}

pub(crate) fn ff_by_2(t: &mut Tally, c: Case, byte: usize, expected: u64) {
    let mut z = [0xff; 1024];
    bench::set_row(&mut z, c.vb, bench::second_register(c), 2, 2);
    after(t, c, "ff by 02", &z, byte, expected);
}

// First source 0, 1, 2, .., second ones: 4·row + k over k is 16·row + 6; the other way round 16·col + 6; both ramps
// (4·row + k)(4·col + k) over k: 64·row·col + 24·row + 24·col + 14. Of two products, 4·row + 1, 4·col + 1 and
// 8·row·col + 2·row + 2·col + 1. The parameters stand one by one: a call is a row of its figures.
pub(crate) fn ramp(t: &mut Tally, c: Case, byte: usize, first: u64, second: u64, both: u64) {
    let mut z = [0u8; 1024];
    let n = bench::first_register(c);
    let m = bench::second_register(c);
    bench::set_ramp(&mut z, c, n);
    bench::set_elements(&mut z, c, m, 1);
    after(t, c, "ramp by ones", &z, byte, first);
    bench::set_ramp(&mut z, c, m);
    after(t, c, "ramp by ramp", &z, byte, both);
    bench::set_elements(&mut z, c, n, 1);
    after(t, c, "ones by ramp", &z, byte, second);
}

// A tile element after a run on zeros, all elements active.
pub(crate) fn after(t: &mut Tally, c: Case, what: &str, z: &[u8], byte: usize, expected: u64) {
    let mut za = [0u8; 1024];
    bench::run(c, z, &[0xff; 64], &mut za);
    t.element(c, what, &za, byte, expected);
}
