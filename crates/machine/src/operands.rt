// An outer product instruction as operands on a tile.
ghost use Rattle.std.specs.Prelude.{◌≡◌, true, ◌<◌};
ghost use Rattle.isa.specs.Table.{in_range, register};
ghost use Rattle.machine.specs.Operands.{governed_operand, halves_operand, outer_product, predicated_outer, quarter_outer};

use isa::{
    Instruction, Operation, Predicate, PredicatedProduct, QuarterProduct, Source, Tile, Vector,
};
use outer::{Operand, OuterProduct, Predication};

pub(crate) fn predicated_outer(p: PredicatedProduct) -> OuterProduct
    ensures { result ≡ predicated_outer p }
{
    let first = governed_operand(p.zn, p.pn, p.op.u0);
    let second = governed_operand(p.zm, p.pm, p.op.u1);
    outer_product(p.op, p.tile, first, second)
}

pub(crate) fn quarter_outer(q: QuarterProduct) -> OuterProduct
    requires { in_range (Instruction.Quarter q) ≡ true }
    ensures { result ≡ quarter_outer q }
{
    let first = halves_operand(q.first, q.op.u0);
    let second = halves_operand(q.second, q.op.u1);
    outer_product(q.op, q.tile, first, second)
}

fn outer_product(op: Operation, tile: Tile, first: Operand, second: Operand) -> OuterProduct
    ensures { result ≡ outer_product op tile first second }
{
    OuterProduct {
        element: isa::element_bytes(op) as usize,
        products: isa::products(op) as usize,
        tile,
        first,
        second,
        subtract: op.subtract,
    }
}

// One register throughout, governed by its predicate.
fn governed_operand(v: Vector, p: Predicate, unsigned: bool) -> Operand
    ensures { result ≡ governed_operand v p unsigned }
{
    Operand {
        low: v,
        high: v,
        predication: Predication::By(p),
        unsigned,
    }
}

// A register, or a pair whose second serves the second half; no predicate.
fn halves_operand(s: Source, unsigned: bool) -> Operand
    requires { register s < 32 }
    ensures { result ≡ halves_operand s unsigned }
{
    match s {
        Source::One(v) => halves(v, v, unsigned),
        Source::Pair(v) => halves(v, Vector(v.0 + 1), unsigned),
    }
}

fn halves(low: Vector, high: Vector, unsigned: bool) -> Operand
    ensures { result ≡ record { low = low; high = high; predication = Predication.Unpredicated; unsigned = unsigned } }
{
    Operand {
        low,
        high,
        predication: Predication::Unpredicated,
        unsigned,
    }
}
