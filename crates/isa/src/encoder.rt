// The word of a description: its fields at their places in the row.
ghost use Rattle.std.specs.Prelude.{◌≡◌, true, not, cond, ◌&&◌, ◌+◌, ◌-◌, ◌*◌, ◌/◌, ◌<◌, ◌≤◌};
ghost use Rattle.isa.specs.Table.{bit, is_pair, register, is_formed, in_range, word_for};
ghost use Rattle.isa.specs.Refusals.{number_in, value_in};
ghost use Rattle.isa.specs.Answers.{encode_of, encode_number, encode_word};

use crate::sizes::element_bytes;
use crate::table::{
    PREDICATED_TWO_WAY, PREDICATED32, PREDICATED64, QUARTER_TWO_WAY, QUARTER32, QUARTER64, ZERO,
};
use crate::{Instruction, Operation, PredicatedProduct, QuarterProduct, Refusal, Source};

// The place of each field: what 1 in it adds to the word. Zn and Zm stand elsewhere in a quarter's row.
const AT_U0: u32 = 0x0100_0000;

const AT_U1: u32 = 0x0020_0000;

const AT_S: u32 = 0x10;

const AT_PREDICATED_ZM: u32 = 0x0001_0000;

const AT_PM: u32 = 0x2000;

const AT_PN: u32 = 0x400;

const AT_PREDICATED_ZN: u32 = 0x20;

const AT_M: u32 = 0x0010_0000;

const AT_QUARTER_ZM: u32 = 0x0002_0000;

const AT_N: u32 = 0x200;

const AT_QUARTER_ZN: u32 = 0x40;

// The one word of a description that is in range; any other is refused.
pub fn encode(i: Instruction) -> Result<u32, Refusal>
    ensures answer { result ≡ encode_of i }
    ensures number { number_in result ≡ encode_number i }
    ensures word { value_in result ≡ encode_word i }
{
    if in_range(i) {
        Ok(word_for(i))
    } else {
        Err(Refusal::OutOfRange)
    }
}

// The word: the row's fixed bits and the bits of the fields, each at its place.

fn word_for(i: Instruction) -> u32
    requires { in_range i ≡ true }
    ensures { result ≡ word_for i }
{
    match i {
        Instruction::Predicated(p) => predicated_word(p),
        Instruction::Quarter(q) => quarter_word(q),
        Instruction::Zero(mask) => ZERO.word + mask as u32,
    }
}

fn predicated_word(p: PredicatedProduct) -> u32
    requires { in_range (Instruction.Predicated p) ≡ true }
    ensures { result ≡ word_for (Instruction.Predicated p) }
{
    let row = by_shape(
        p.op,
        PREDICATED32.word,
        PREDICATED64.word,
        PREDICATED_TWO_WAY.word,
    );
    row + (operation_bits(p.op, p.tile.0) + predicated_bits(p))
}

fn quarter_word(q: QuarterProduct) -> u32
    requires { in_range (Instruction.Quarter q) ≡ true }
    ensures { result ≡ word_for (Instruction.Quarter q) }
{
    let row = by_shape(q.op, QUARTER32.word, QUARTER64.word, QUARTER_TWO_WAY.word);
    row + (operation_bits(q.op, q.tile.0) + quarter_bits(q.first, q.second))
}

// One of three numbers, by the operation's shape.
fn by_shape(op: Operation, bytes32: u32, halves64: u32, halves32: u32) -> u32
    ensures { result ≡ cond op.two_way halves32 (cond op.wide halves64 bytes32) }
{
    if op.two_way {
        halves32
    } else if op.wide {
        halves64
    } else {
        bytes32
    }
}

// A 2-way row has no u1.
fn operation_bits(op: Operation, tile: u32) -> u32
    requires { tile < 8 }
    ensures { result ≡ bit op.u0 * 0x1000000 + bit (op.u1 && not op.two_way) * 0x200000 + bit op.subtract * 0x10 + tile }
{
    let u1 = op.u1 & !op.two_way;
    op.u0 as u32 * AT_U0 + u1 as u32 * AT_U1 + op.subtract as u32 * AT_S + tile
}

fn predicated_bits(p: PredicatedProduct) -> u32
    requires { (p.pn.0 < 8) × (p.pm.0 < 8) × (p.zn.0 < 32) × (p.zm.0 < 32) }
    ensures { result ≡ p.zm.0 * 0x10000 + p.pm.0 * 0x2000 + p.pn.0 * 0x400 + p.zn.0 * 0x20 }
{
    p.zm.0 * AT_PREDICATED_ZM + p.pm.0 * AT_PM + p.pn.0 * AT_PN + p.zn.0 * AT_PREDICATED_ZN
}

fn quarter_bits(first: Source, second: Source) -> u32
    requires { (register first < 16) × (16 ≤ register second) × (register second < 32) }
    ensures { result ≡ bit (is_pair second) * 0x100000 + (register second - 16) / 2 * 0x20000 + bit (is_pair first) * 0x200 + register first / 2 * 0x40 }
{
    is_pair(second) as u32 * AT_M
        + (register_of(second) - 16) / 2 * AT_QUARTER_ZM
        + is_pair(first) as u32 * AT_N
        + register_of(first) / 2 * AT_QUARTER_ZN
}

// Which descriptions are in range.

fn in_range(i: Instruction) -> bool
    ensures { result ≡ in_range i }
{
    match i {
        Instruction::Predicated(p) => predicated_in_range(p),
        Instruction::Quarter(q) => quarter_in_range(q),
        Instruction::Zero(_) => true,
    }
}

fn predicated_in_range(p: PredicatedProduct) -> bool
    ensures { result ≡ in_range (Instruction.Predicated p) }
{
    is_formed(p.op)
        & (p.tile.0 < element_bytes(p.op))
        & (p.pn.0 < 8)
        & (p.pm.0 < 8)
        & (p.zn.0 < 32)
        & (p.zm.0 < 32)
}

fn quarter_in_range(q: QuarterProduct) -> bool
    ensures { result ≡ in_range (Instruction.Quarter q) }
{
    let n = register_of(q.first);
    let m = register_of(q.second);
    is_formed(q.op)
        & (q.tile.0 < element_bytes(q.op))
        & (n % 2 == 0)
        & (n <= 14)
        & (m % 2 == 0)
        & (16 <= m)
        & (m <= 30)
}

// Two products come to 32-bit elements alone, from sources of one sign.
fn is_formed(op: Operation) -> bool
    ensures { result ≡ is_formed op }
{
    if op.two_way {
        !op.wide & (op.u0 == op.u1)
    } else {
        true
    }
}

pub fn is_pair(s: Source) -> bool
    ensures { result ≡ is_pair s }
{
    matches!(s, Source::Pair(_))
}

pub fn register_of(s: Source) -> u32
    ensures { result ≡ register s }
{
    match s {
        Source::One(v) | Source::Pair(v) => v.0,
    }
}
