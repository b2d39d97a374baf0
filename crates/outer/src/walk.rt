// The walk over a tile, one for all shapes: the second source is read once for a word, and a row's first-source elements once;
// where a source is a pair, once for each half of the rows, or of the columns.
ghost use Rattle.std.specs.Prelude.{◌≡◌, ℕ, ◌+◌, ◌*◌, ◌/◌, ◌<◌, length, IfSome};
ghost use Rattle.storage.specs.Sizes.{za_size};
ghost use Rattle.storage.specs.Tile.{add_to};
ghost use Rattle.outer.specs.Products.{register_at, sums, Shaped, Ready};
ghost use Rattle.outer.specs.Walks.{Fetched, Planes, Added, SameUntil};

use crate::OuterProduct;
use crate::product::{add_signed, load, multiply, store};
use crate::task::Task;

// Adds an outer product to its tile, on vectors of vb bytes.
pub fn update(vb: usize, o: OuterProduct, z: &[u8], p: &[u8], za: &mut [u8])
    requires shaped { Shaped o.element o.products }
    requires ready { Ready o.element vb o z.now p.now }
    requires za_len { length za.old ≡ za_size vb }
    ensures { za.new ≡ add_to o.element vb o.tile.0 (sums vb o z.now p.now) za.old }
{
    let task = Task { vb, o, z, p };
    let n = task.columns();
    let mut y = [0i32; 256];
    let mut held = None;
    for row in 0..n {
        let register = task.register_at(o.second, row);
        task.hold(register, held, &mut y);
        held = Some(register);
        task.add_row(row, &y, za);
    }
}

impl Task<'_> {
    // Sees to it that the planes have the second source's register, which may be the one that they hold.
    fn hold(&self, register: usize, held: Option<usize>, y: &mut [i32])
        requires register_bound { (register < 32) × (length y.old ≡ 256) }
        requires held { IfSome held (λ h. Planes self.now.vb self.now.o self.now.z.now self.now.p.now h y.old) }
        ensures { Planes self.now.vb self.now.o self.now.z.now self.now.p.now register y.new }
    {
        if held != Some(register) {
            self.widen(register, y);
        }
    }

    // The second source's register in planes: the element for product j of column c at 64 * j + c, negated where the instruction
    // subtracts, so that its products come out negated. The task is copied first: behind a reference, the compiler leaves its tests
    // in the loops.
    #[tactic(auto, using(crate::proofs::Shapes::few_products, crate::proofs::Shapes::few_columns_of, crate::proofs::Shapes::element_inside, crate::proofs::Shapes::number_lt))]
    fn widen(&self, register: usize, y: &mut [i32])
        requires register_bound { (register < 32) × (length y.old ≡ 256) }
        ensures { Planes self.now.vb self.now.o self.now.z.now self.now.p.now register y.new }
    {
        let task = *self;
        let k = task.o.products;
        for c in 0..task.columns() {
            for j in 0..k {
                let v = task.element(task.o.second, register, k * c + j);
                y[64 * j + c] = if task.o.subtract { 0 - v } else { v };
            }
        }
    }

    // A row, by the registers of the first source. One call serves all runs: with two, the compiler keeps the walk over columns
    // apart, and lists of words took up to a fifth longer. What the row asks of ZA and of the planes stands at each function: ZA is
    // lent to be written, and the planes are filled anew between rows.
    fn add_row(&self, row: usize, y: &[i32], za: &mut [u8])
        requires za_len { length za.old ≡ za_size self.now.vb }
        requires row_bound { row < self.now.vb / self.now.o.element }
        requires planes { let t = self.now in Planes t.vb t.o t.z.now t.p.now (register_at t.o.second (t.vb / t.o.element) row) y.now }
        ensures { Added self.now.vb self.now.o self.now.z.now self.now.p.now row 0 (self.now.vb / self.now.o.element) za.old za.new }
    {
        let (runs, columns) = self.runs();
        for run in 0..runs {
            self.add_part(row, run * columns, (run + 1) * columns, y, za);
        }
    }

    // How many runs of columns there are for which the first source is one register, and the columns of each: one run of all, or
    // two halves.
    fn runs(&self) -> (usize, usize)
        ensures whole { result.0 * result.1 ≡ self.now.vb / self.now.o.element }
        ensures same { (run : ℕ) → run < result.0 → SameUntil self.now.o.first (self.now.vb / self.now.o.element) (run * result.1) ((run + 1) * result.1) }
    {
        let n = self.columns();
        if self.o.first.low.0 == self.o.first.high.0 {
            (1, n)
        } else {
            (2, n / 2)
        }
    }

    // Columns from..to of a row, for which the first source is one register.
    fn add_part(&self, row: usize, from: usize, to: usize, y: &[i32], za: &mut [u8])
        requires za_len { length za.old ≡ za_size self.now.vb }
        requires row_bound { row < self.now.vb / self.now.o.element }
        requires planes { let t = self.now in Planes t.vb t.o t.z.now t.p.now (register_at t.o.second (t.vb / t.o.element) row) y.now }
        requires same_until { SameUntil self.now.o.first (self.now.vb / self.now.o.element) from to }
        ensures { Added self.now.vb self.now.o self.now.z.now self.now.p.now row from to za.old za.new }
    {
        let register = self.register_at(self.o.first, from);
        let mut x = [0i32; 8];
        self.fetch(register, row, &mut x);
        if self.o.element == 8 {
            self.add_columns::<8, 4>(row, from, to, &x, y, za);
            return;
        }
        if self.o.products == 2 {
            self.add_columns::<4, 2>(row, from, to, &x, y, za);
            return;
        }
        self.add_columns::<4, 4>(row, from, to, &x, y, za);
    }

    // The elements of the first source's register for a row, two places apart: side by side, the compiler packs them into a vector
    // and takes them out of it again for every product.
    #[tactic(auto, using(crate::proofs::Shapes::few_products, crate::proofs::Shapes::few_columns_of, crate::proofs::Shapes::element_inside, crate::proofs::Shapes::number_lt))]
    fn fetch(&self, register: usize, row: usize, x: &mut [i32])
        requires register_bound { (register < 32) × (row < self.now.vb / self.now.o.element) × (length x.old ≡ 8) }
        ensures { Fetched self.now.vb self.now.o self.now.z.now self.now.p.now register row x.new }
    {
        let task = *self;
        let k = task.o.products;
        for j in 0..k {
            x[2 * j] = task.element(task.o.first, register, k * row + j);
        }
    }

    // Adds K products to each element, of E bytes, in columns from..to of a row: x has the row's elements, two places apart, y
    // the second source in planes. Sizes are constants here, so that each shape has its own loop.
    fn add_columns<const E: usize, const K: usize>(
        &self,
        row: usize,
        from: usize,
        to: usize,
        x: &[i32],
        y: &[i32],
        za: &mut [u8],
    )
        requires shape { (self.now.o.element ≡ E) × (self.now.o.products ≡ K) }
        requires za_len { length za.old ≡ za_size self.now.vb }
        requires row_bound { row < self.now.vb / self.now.o.element }
        requires planes { let t = self.now in Planes t.vb t.o t.z.now t.p.now (register_at t.o.second (t.vb / t.o.element) row) y.now }
        requires same_until { SameUntil self.now.o.first (self.now.vb / self.now.o.element) from to }
        requires fetched { let t = self.now in Fetched t.vb t.o t.z.now t.p.now (register_at t.o.first (t.vb / t.o.element) from) row x.now }
        ensures { Added self.now.vb self.now.o self.now.z.now self.now.p.now row from to za.old za.new }
    {
        let start = (row * E + self.o.tile.0 as usize) * self.vb;
        for c in from..to {
            let i = start + c * E;
            let mut sum = load(E, za, i);
            for j in 0..K {
                sum = add_signed(E, sum, multiply(E, K, x[2 * j], y[64 * j + c]));
            }
            store(E, za, i, sum);
        }
    }
}
