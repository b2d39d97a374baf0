// What a word means: its line of the table, and the description that the line makes of its fields.
ghost use Rattle.std.specs.Prelude.{◌≡◌, true, not, cond, eqb, ltb, ◌/◌, ◌%◌, ◌<◌, ◌≤◌, MatchResult, Ok, Err};
ghost use Rattle.isa.specs.Row.{field_of};
ghost use Rattle.isa.specs.Table.{predicated32, all_flags, lacking as lacking_of, predicated, quarter, described, operation_of_fields, source, element_bytes, tiles_of};
ghost use Rattle.isa.specs.Refusals.{refusal_in, number_in, missing_beside};
ghost use Rattle.isa.specs.Answers.{decode_of, decode_refusal, decode_number, decode_missing};
ghost use Rattle.isa.specs.Lines.{entry_for};

use crate::sizes::element_bytes;
use crate::table::line_of;
use crate::{
    Instruction, Line, Operation, Predicate, PredicatedProduct, QuarterProduct, Refusal, Shape,
    Source, Tile, Vector,
};

// The features' flags. Numbers, as a bench's flags are a sum of them: any number may come, and `decode` answers for each.
const SME: u32 = 1;

const I16I64: u32 = 2;

const MOP4: u32 = 4;

const SME2: u32 = 8;

// Every feature on; a larger number is no sum of features.
pub const ALL_FLAGS: u32 = 15;

// Whether flags are a sum of features.
pub fn flags_legal(flags: u32) -> bool
    ensures { result ≡ not (ltb all_flags flags) }
{
    flags <= ALL_FLAGS
}

// The instruction that a word is, or why it is none: illegal flags, an unlisted word, a missing feature.
pub fn decode(flags: u32, word: u32) -> Result<Instruction, Refusal>
    ensures answer { result ≡ decode_of flags word }
    ensures number { number_in result ≡ decode_number flags word }
    ensures missing { missing_beside result ≡ decode_missing flags word }
{
    if is_far(flags, word) {
        return Err(Refusal::Unlisted);
    }
    let line = allowed_line(flags, word)?;
    Ok(describe(line, word))
}

// The refusal of that answer, if it has one. No description is made, which would go through memory.
pub fn check(flags: u32, word: u32) -> Result<(), Refusal>
    ensures refusal { refusal_in result ≡ decode_refusal flags word }
    ensures number { number_in result ≡ decode_number flags word }
    ensures missing { missing_beside result ≡ decode_missing flags word }
{
    if is_far(flags, word) {
        return Err(Refusal::Unlisted);
    }
    allowed_line(flags, word)?;
    Ok(())
}

// The line of a word that passes decode's tests.
fn allowed_line(flags: u32, word: u32) -> Result<Line, Refusal>
    ensures { MatchResult result (λ (line : Line). decode_of flags word ≡ Ok (described (entry_for line) word)) (λ (r : Refusal). decode_of flags word ≡ Err r) }
{
    if !flags_legal(flags) {
        return Err(Refusal::Flags);
    }
    let Some(line) = line_of(word) else {
        return Err(Refusal::Unlisted);
    };
    let missing = lacking(flags, line);
    if missing != 0 {
        return Err(Refusal::FeatureOff { missing });
    }
    Ok(line)
}

// Whether flags are legal and the word differs from every line in four bits. Most words do, and are done with by this test.
fn is_far(flags: u32, word: u32) -> bool
    ensures { result ≡ true → decode_of flags word ≡ Err Refusal.Unlisted }
{
    flags_legal(flags) & ((word >> 25) % 16 != 0)
}

// The sum of the features that a line needs and flags lack.
fn lacking(flags: u32, line: Line) -> u32
    ensures { result ≡ lacking_of flags (entry_for line).needs }
{
    match line {
        Line::Predicated(Shape::Bytes32) => lacked(flags, SME),
        Line::Predicated(Shape::Halves64) => lacked(flags, I16I64),
        Line::Predicated(Shape::Halves32) => lacked(flags, SME2),
        Line::Quarter(Shape::Bytes32) => lacked(flags, MOP4),
        Line::Quarter(Shape::Halves64) => lacked(flags, MOP4) + lacked(flags, I16I64),
        Line::Quarter(Shape::Halves32) => lacked(flags, MOP4),
        Line::Zero => lacked(flags, SME),
    }
}

// A feature's flag where flags lack it, else 0.
fn lacked(flags: u32, flag: u32) -> u32
    requires { 0 < flag }
    ensures answer { result ≡ cond (eqb (flags / flag % 2) 1) 0 flag }
    ensures upper_bound { result ≤ flag }
{
    if flags / flag % 2 == 1 { 0 } else { flag }
}

// The description that a line makes of a word's fields.

fn describe(line: Line, w: u32) -> Instruction
    ensures { result ≡ described (entry_for line) w }
{
    match line {
        Line::Predicated(shape) => describe_predicated(shape, w),
        Line::Quarter(shape) => describe_quarter(shape, w),
        Line::Zero => Instruction::Zero((w % 256) as u8),
    }
}

fn describe_predicated(shape: Shape, w: u32) -> Instruction
    ensures { result ≡ described (predicated shape) w }
{
    let op = operation_of(shape, w);
    Instruction::Predicated(PredicatedProduct {
        op,
        tile: tile_of(op, w),
        pn: Predicate((w >> 10) % 8),
        pm: Predicate((w >> 13) % 8),
        zn: Vector((w >> 5) % 32),
        zm: Vector((w >> 16) % 32),
    })
}

fn describe_quarter(shape: Shape, w: u32) -> Instruction
    ensures { result ≡ described (quarter shape) w }
{
    let op = operation_of(shape, w);
    Instruction::Quarter(QuarterProduct {
        op,
        tile: tile_of(op, w),
        first: source_of((w >> 9) % 2 == 1, 2 * ((w >> 6) % 8)),
        second: source_of((w >> 20) % 2 == 1, 16 + 2 * ((w >> 17) % 8)),
    })
}

// u0, u1 and S stand at the same bits in every outer product that has them; a 2-way one has no u1.
fn operation_of(shape: Shape, w: u32) -> Operation
    ensures { result ≡ operation_of_fields shape (field_of predicated32 w) }
{
    let u0 = (w >> 24) % 2 == 1;
    let u1 = (w >> 21) % 2 == 1;
    let subtract = (w >> 4) % 2 == 1;
    let (wide, two_way, u1) = match shape {
        Shape::Bytes32 => (false, false, u1),
        Shape::Halves64 => (true, false, u1),
        Shape::Halves32 => (false, true, u0),
    };
    Operation {
        wide,
        two_way,
        u0,
        u1,
        subtract,
    }
}

// ZAda stands at the lowest bits, as many as tell the tiles apart.
fn tile_of(op: Operation, w: u32) -> Tile
    ensures { result ≡ record { 0 = w % tiles_of (element_bytes op) } }
{
    Tile(w % element_bytes(op))
}

// A source by its kind and its first register.
pub fn source_of(pair: bool, n: u32) -> Source
    ensures { result ≡ source pair n }
{
    if pair {
        Source::Pair(Vector(n))
    } else {
        Source::One(Vector(n))
    }
}
