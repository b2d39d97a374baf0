// Figures: each is printed with its name, compared with what was expected, and counted.
use crate::bench::Case;
use checks::STDOUT_FILENO;
use std::fmt;

// How many figures there were, and how many were as expected.
#[derive(Clone, Copy, Default)]
pub struct Tally {
    pub figures: u64,
    pub agreed: u64,
}

impl Tally {
    pub(crate) fn report(self) {
        checks::count(b"figures: ", self.figures);
        checks::count(b"agreed: ", self.agreed);
    }

    // The tile element of a case that starts at a byte of ZA. The parameters stand one by one: a call is a row of its figures.
    pub(crate) fn element(&mut self, c: Case, what: &str, za: &[u8], byte: usize, expected: u64) {
        let size = if c.wide { 8 } else { 4 };
        self.compared(
            format_args!("{c}, {what}, byte {byte}"),
            element_at(za, byte, size),
            2 * size,
            expected,
        );
    }

    // How many bytes of ZA a case leaves so or so.
    pub(crate) fn bytes(&mut self, c: Case, what: &str, value: u64, expected: u64) {
        self.number(format_args!("{c}, {what}"), value, expected);
    }

    // A figure under what is told of it, in two digits or more.
    pub(crate) fn number(&mut self, what: impl fmt::Display + Drop, value: u64, expected: u64) {
        self.compared(what, value, 2, expected);
    }

    // Byte i, under what is told of it with its place; 1 past the end.
    pub(crate) fn byte(&mut self, what: &str, s: &[u8], i: usize, expected: u64) {
        let value = s.get(i).map_or(1, |&byte| u64::from(byte));
        self.number(format_args!("{what}{i}"), value, expected);
    }

    fn compared(
        &mut self,
        what: impl fmt::Display + Drop,
        value: u64,
        digits: usize,
        expected: u64,
    ) {
        checks::print(format_args!("{what}: "));
        io::print_hex(STDOUT_FILENO, value, digits);
        let same = value == expected;
        if !same {
            checks::print(" differs from ");
            io::print_hex(STDOUT_FILENO, expected, digits);
        }
        checks::print("\n");
        self.figures = self.figures.wrapping_add(1);
        self.agreed = self.agreed.wrapping_add(u64::from(same));
    }
}

// A case is shown by its mnemonic, tile and vector length, and the registers of a quarter-tile one.
impl fmt::Display for Case {
    fn fmt<W: fmt::Write>(&self, f: &mut fmt::Formatter<W>) -> fmt::Result {
        let signs = match (self.u0, self.u1) {
            (true, true) => "u",
            (true, false) => "us",
            (false, true) => "su",
            (false, false) => "s",
        };
        let four = if self.quarter { "4" } else { "" };
        let stroke = if self.subtract { "s" } else { "a" };
        let suffix = if self.wide { "d" } else { "s" };
        let ways = if self.two_way { " 2-way" } else { "" };
        write!(
            f,
            "{signs}mop{four}{stroke} za{}.{suffix}{ways} vb {}",
            self.tile, self.vb
        )?;
        if self.quarter {
            let first = if self.first_pair { "z2-z3" } else { "z2" };
            let second = if self.second_pair { "z18-z19" } else { "z18" };
            write!(f, " {first} {second}")?;
        }
        Ok(())
    }
}

// The little-endian element of so many bytes that starts at byte i, or 0 if it does not end in s.
fn element_at(s: &[u8], i: usize, size: usize) -> u64 {
    let Some(bytes) = s.get(i..).and_then(|rest| rest.get(..size)) else {
        return 0;
    };
    let mut n: u64 = 0;
    for &byte in bytes.iter().rev() {
        n = n.wrapping_mul(256).wrapping_add(u64::from(byte));
    }
    n
}

// How many bytes are v.
pub(crate) fn count_of(s: &[u8], v: u8) -> u64 {
    s.iter().filter(|byte| **byte == v).count() as u64
}
