// What a run has cleared so far, as a byte: bit i stands for the rows of 64-bit tile i.
ghost use Rattle.std.specs.Prelude.{◌≡◌, true, ◌||◌, ◌<◌};
ghost use Rattle.std.proofs.Math.Option.{some};
ghost use Rattle.isa.specs.Table.{in_range, element_bytes};
ghost use Rattle.storage.specs.Tile.{masked};
ghost use Rattle.machine.specs.Instructions.{mask_of, tile_named};
ghost use Rattle.machine.specs.Clearing.{in_mask, StandsFor, TellsCleared};

use isa::{Instruction, Operation, Tile};

// Whether every row of the tile that an instruction names is cleared; one that names none has none to clear.
pub(crate) fn named_cleared(cleared: u8, i: Instruction) -> bool
    requires { in_range i ≡ true }
    ensures { TellsCleared result cleared (tile_named (some i)) }
{
    match i {
        Instruction::Predicated(p) => tile_cleared(cleared, p.op, p.tile),
        Instruction::Quarter(q) => tile_cleared(cleared, q.op, q.tile),
        Instruction::Zero(_) => true,
    }
}

// A 64-bit tile has its own rows; a 32-bit tile t has those of 64-bit tiles t and t + 4.
fn tile_cleared(cleared: u8, op: Operation, tile: Tile) -> bool
    requires { tile.0 < element_bytes op }
    ensures { TellsCleared result cleared (some (record { E = element_bytes op; tile = tile.0 })) }
{
    let first = tile.0;
    let last = first + (8 - isa::element_bytes(op));
    ((cleared >> first) % 2 == 1) & ((cleared >> last) % 2 == 1)
}

// What is cleared once an instruction is executed: ZERO clears the rows of its mask.
pub(crate) fn also_cleared(cleared: u8, i: Instruction) -> u8
    ensures { StandsFor result (λ row. masked cleared row || in_mask (mask_of (some i)) row) }
{
    match i {
        Instruction::Predicated(_) | Instruction::Quarter(_) => cleared,
        Instruction::Zero(mask) => cleared | mask,
    }
}
