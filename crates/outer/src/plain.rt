// The plain walk over a tile, straight from Arm's pseudocode: rows, columns and products nested, and for each product its two
// elements are looked for anew. The fast walk is held against it.
ghost use Rattle.std.specs.Prelude.{◌≡◌, ◌/◌, ◌^◌, ◌<◌, length, ◌*ℤ◌};
ghost use Rattle.std.specs.Int.Signed.{mag};
ghost use Rattle.storage.specs.Sizes.{za_size};
ghost use Rattle.storage.specs.Modulo.{plus};
ghost use Rattle.storage.specs.Tile.{add_to};
ghost use Rattle.outer.specs.Products.{directed, directed_product, sums, Shaped, Ready};
ghost use Rattle.outer.specs.Walks.{ByteOrHalf};

use crate::OuterProduct;
use crate::product::{add_signed, load, multiply, store};
use crate::source::read;
use crate::task::Task;

// Adds an outer product to its tile, on vectors of vb bytes.
pub fn update_plainly(vb: usize, o: OuterProduct, z: &[u8], p: &[u8], za: &mut [u8])
    requires shaped { Shaped o.element o.products }
    requires ready { Ready o.element vb o z.now p.now }
    requires za_len { length za.old ≡ za_size vb }
    ensures { za.new ≡ add_to o.element vb o.tile.0 (sums vb o z.now p.now) za.old }
{
    let task = Task { vb, o, z, p };
    if o.element == 8 {
        return task.add_plainly::<4, 2>(za);
    }
    if o.products == 2 {
        return task.add_plainly::<2, 2>(za);
    }
    task.add_plainly::<4, 1>(za)
}

impl Task<'_> {
    // Rows, columns and K products, of source elements of B bytes. These are constants here, so that each shape has its own loops.
    #[inline(always)]
    fn add_plainly<const K: usize, const B: usize>(&self, za: &mut [u8])
        requires shape { (self.now.o.products ≡ K) × (B ≡ self.now.o.element / self.now.o.products) }
        requires za_len { length za.old ≡ za_size self.now.vb }
        ensures { let t = self.now in za.new ≡ add_to t.o.element t.vb t.o.tile.0 (sums t.vb t.o t.z.now t.p.now) za.old }
    {
        let e = self.o.element;
        let tile = self.o.tile.0 as usize;
        let dim = self.columns();
        for row in 0..dim {
            for col in 0..dim {
                let i = (row * e + tile) * self.vb + col * e;
                let mut sum = load(e, za, i);
                for k in 0..K {
                    sum = self.add_product::<B>(sum, row, col, k);
                }
                store(e, za, i, sum);
            }
        }
    }

    // Product k of element (row, col), added to sum.
    #[inline(always)]
    #[tactic(auto, using(crate::proofs::Shapes::element_in))]
    fn add_product<const B: usize>(&self, sum: u64, row: usize, col: usize, k: usize) -> u64
        requires source_bytes { (B ≡ self.now.o.element / self.now.o.products) × ByteOrHalf B }
        requires row_bound { (row < self.now.vb / self.now.o.element) × (col < self.now.vb / self.now.o.element) × (k < self.now.o.products) }
        requires sum_bound { sum < 256 ^ self.now.o.element }
        ensures { let t = self.now in result ≡ plus t.o.element sum (directed_product t.o.element t.o.products t.vb t.o t.z.now t.p.now row col k) }
    {
        let first_byte = (self.o.products * row + k) * B;
        let second_byte = (self.o.products * col + k) * B;
        if !self.is_active(self.o.first, first_byte) {
            return sum;
        }
        if !self.is_active(self.o.second, second_byte) {
            return sum;
        }
        let n = self.register_at(self.o.first, col);
        let m = self.register_at(self.o.second, row);
        let x = read(B, self.z, n * self.vb + first_byte, self.o.first.unsigned);
        let y = read(B, self.z, m * self.vb + second_byte, self.o.second.unsigned);
        accumulate(self.o.element, self.o.products, sum, x, y, self.o.subtract)
    }
}

// A product, negated where the instruction subtracts, added to sum.
fn accumulate(e: usize, k: usize, sum: u64, x: i32, y: i32, subtract: bool) -> u64
    requires shaped { Shaped e k }
    requires sum_bound { (sum < 256 ^ e) × (mag x < 256 ^ (e / k)) × (mag y < 256 ^ (e / k)) }
    ensures { result ≡ plus e sum (directed subtract (x *ℤ y)) }
{
    let product = multiply(e, k, x, y);
    if subtract {
        return add_signed(e, sum, 0 - product);
    }
    add_signed(e, sum, product)
}
