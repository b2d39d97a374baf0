// Which pairs of outer products must keep their order.
#![tactic(auto)]

ghost use Rattle.std.specs.Prelude.{◌≡◌, true, ◌<◌};
ghost use Rattle.std.proofs.Math.Option.{some};
ghost use Rattle.isa.specs.Table.{in_range, element_bytes};
ghost use Rattle.machine.specs.Instructions.{tile_named};
ghost use Rattle.pairs.specs.Order.{clash, order_matters};

use isa::{Instruction, Operation, Tile};

// Whether the order of two words matters to some contents of Z, P and ZA: both are outer products that decode accepts, and their
// tiles share rows and differ in width.
pub fn order_matters(flags: u32, a: u32, b: u32) -> bool
    ensures { result ≡ order_matters flags a b }
{
    let Ok(i) = isa::decode(flags, a) else {
        return false;
    };
    let Ok(j) = isa::decode(flags, b) else {
        return false;
    };
    instructions_clash(i, j)
}

// By the tile that the first instruction names; a ZERO names none.
fn instructions_clash(i: Instruction, j: Instruction) -> bool
    requires { (in_range i ≡ true) × (in_range j ≡ true) }
    ensures { result ≡ clash (tile_named (some i)) (tile_named (some j)) }
{
    match i {
        Instruction::Predicated(p) => tile_clashes(p.op, p.tile, j),
        Instruction::Quarter(q) => tile_clashes(q.op, q.tile, j),
        Instruction::Zero(_) => false,
    }
}

// By the tile that the other instruction names, beside tile t of the first.
fn tile_clashes(op: Operation, t: Tile, j: Instruction) -> bool
    requires { (t.0 < element_bytes op) × (in_range j ≡ true) }
    ensures { result ≡ clash (some (record { E = element_bytes op; tile = t.0 })) (tile_named (some j)) }
{
    match j {
        Instruction::Predicated(p) => tiles_clash(op, t, p.op, p.tile),
        Instruction::Quarter(q) => tiles_clash(op, t, q.op, q.tile),
        Instruction::Zero(_) => false,
    }
}

// A 32-bit tile t has the rows of 64-bit tiles t and t + 4.
fn tiles_clash(op: Operation, t: Tile, other: Operation, u: Tile) -> bool
    requires { (t.0 < element_bytes op) × (u.0 < element_bytes other) }
    ensures { result ≡ clash (some (record { E = element_bytes op; tile = t.0 })) (some (record { E = element_bytes other; tile = u.0 })) }
{
    let widths_differ = isa::element_bytes(op) != isa::element_bytes(other);
    widths_differ & (t.0 % 4 == u.0 % 4)
}
