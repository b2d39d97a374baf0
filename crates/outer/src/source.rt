// Source elements: which register has them, whether they count, and what numbers they are.
ghost use Rattle.std.specs.Prelude.{◌≡◌, ◌+◌, ◌*◌, ◌/◌, ◌^◌, ◌<◌, ◌≤◌, length};
ghost use Rattle.std.specs.Int.Signed.{mag};
ghost use Rattle.storage.specs.Bytes.{at, word};
ghost use Rattle.outer.specs.Products.{interpret, register_at, active, GoodPredication, GoodOperand};
ghost use Rattle.outer.specs.Walks.{ByteOrHalf, ValuedIn};

use crate::task::Task;
use crate::{Operand, Predication};

impl Task<'_> {
    // The columns of a tile, which has as many rows, and the bytes of a source element: tests are quicker than a division.

    pub(crate) fn columns(&self) -> usize
        ensures { result ≡ self.now.vb / self.now.o.element }
    {
        if self.o.element == 8 {
            return self.vb / 8;
        }
        self.vb / 4
    }

    pub(crate) fn source_bytes(&self) -> usize
        ensures is { result ≡ self.now.o.element / self.now.o.products }
        ensures byte_or_half { ByteOrHalf result }
    {
        if self.o.element == self.o.products {
            return 1;
        }
        2
    }

    // The register that a source has for row or column i.
    pub(crate) fn register_at(&self, source: Operand, i: usize) -> usize
        requires { GoodOperand source }
        ensures is { result ≡ register_at source (self.now.vb / self.now.o.element) i }
        ensures bound { result < 32 }
    {
        if i < self.columns() / 2 {
            source.low.0 as usize
        } else {
            source.high.0 as usize
        }
    }

    // Element i of a source's register, as a whole number; 0 where it is not active.
    pub(crate) fn element(&self, source: Operand, register: usize, i: usize) -> i32
        requires source { GoodOperand source }
        requires register_bound { register < 32 }
        requires i_bound { i * (self.now.o.element / self.now.o.products) + self.now.o.element / self.now.o.products ≤ self.now.vb }
        ensures { ValuedIn self.now.vb self.now.o self.now.z.now self.now.p.now source register i result }
    {
        let b = self.source_bytes();
        let byte = i * b;
        if !self.is_active(source, byte) {
            return 0;
        }
        read(b, self.z, register * self.vb + byte, source.unsigned)
    }

    // Whether a source's element that starts at a vector byte is active.
    pub(crate) fn is_active(&self, source: Operand, byte: usize) -> bool
        requires predication { GoodPredication source.predication }
        requires byte_bound { byte < self.now.vb }
        ensures { result ≡ active 1 self.now.vb self.now.p.now source.predication byte }
    {
        match source.predication {
            Predication::Unpredicated => true,
            Predication::By(q) => storage::bit(self.p, (q.0 as usize) * self.vb + byte),
        }
    }
}

// The element of b bytes at byte i.
pub(crate) fn read(b: usize, z: &[u8], i: usize, unsigned: bool) -> i32
    requires byte_or_half { ByteOrHalf b }
    requires b_in_bounds { i + b ≤ length z.now }
    ensures { (result ≡ interpret b unsigned (word b (at z.now) i)) × (mag result < 256 ^ b) }
{
    if b == 1 {
        return extend(b, z[i] as u16, unsigned);
    }
    extend(b, storage::load_u16(z, i), unsigned)
}

// A number of b bytes, sign-extended unless it is unsigned.
fn extend(b: usize, n: u16, unsigned: bool) -> i32
    requires byte_or_half { ByteOrHalf b }
    requires n_bound { n < 256 ^ b }
    ensures { (result ≡ interpret b unsigned n) × (mag result < 256 ^ b) }
{
    if unsigned {
        return n as i32;
    }
    let half = if b == 1 { 128 } else { 32768 };
    if n < half {
        n as i32
    } else {
        (n as i32) - 2 * (half as i32)
    }
}
