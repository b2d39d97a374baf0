// Clearing rows of 64-bit tiles (document 01, "Storage").
use crate::figures::Tally;
use crate::{bench, figures};

pub(crate) fn all(t: &mut Tally) {
    rows_0_and_5(t);
    cleared(t, "zero 00 vb 16, bytes cleared", 16, 0, 0);
    // Mask 21: rows 0, 5, 8 and 13 of 16 bytes; 0, 5, 8, 13, 16, 21, 24 and 29 of 32 bytes
    cleared(t, "zero 21 vb 16, bytes cleared", 16, 0x21, 4 * 16);
    cleared(t, "zero 21 vb 32, bytes cleared", 32, 0x21, 8 * 32);
    cleared(t, "zero ff vb 16, bytes cleared", 16, 0xff, 256);
    cleared(t, "zero ff vb 32, bytes cleared", 32, 0xff, 1024);
}

// How many bytes are cleared of a bench of ones.
fn cleared(t: &mut Tally, what: &str, vb: usize, mask: u8, expected: u64) {
    let mut za = [0xff; 1024];
    bench::clear(vb, mask, &mut za);
    t.number(what, figures::count_of(&za, 0), expected);
}

// At VB 16 mask 21 clears rows 0, 5, 8 and 13, and none beside them: the last and the first byte of a row.
fn rows_0_and_5(t: &mut Tally) {
    let mut za = [0xff; 1024];
    bench::clear(16, 0x21, &mut za);
    for (i, expected) in [
        (0, 0),
        (15, 0),
        (16, 0xff),
        (79, 0xff),
        (80, 0),
        (95, 0),
        (96, 0xff),
        (127, 0xff),
        (128, 0),
        (144, 0xff),
        (207, 0xff),
        (208, 0),
        (223, 0),
        (224, 0xff),
    ] {
        t.byte("zero 21 vb 16, byte ", &za, i, expected);
    }
}
