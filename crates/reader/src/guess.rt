// A guess of the instruction that a line spells: right for every line that spells one, and of no use for any other.
ghost use Rattle.std.specs.Prelude.{◌≡◌};
ghost use Rattle.reader.specs.Guess.{fresh, number_after, shifted, marked, stepped, scanned, byte_at, one_sign, second_at, last_at, operation_of, source_of, outer_of, share, tiles_after, zero_mask, guess_of};

use crate::Scan;
use isa::{
    Instruction, Operation, Predicate, PredicatedProduct, QuarterProduct, Source, Tile, Vector,
};

// The length of `zero { za }`, the one name without a number; no other ZERO has it.
const ALL_LENGTH: usize = 11;

pub(crate) fn guess(line: &[u8]) -> Instruction
    ensures { result ≡ guess_of line.now }
{
    if byte(line, 0) == b'z' {
        return Instruction::Zero(mask_of(line));
    }
    let s = scan(line);
    let two_way = s.half & !s.wide;
    outer_of(operation_of(line, s.wide, two_way, s.predicated), s)
}

// The outer product with these operands: predicated where a predicate was named, else of a quarter tile.
fn outer_of(op: Operation, s: Scan) -> Instruction
    ensures { result ≡ outer_of op s }
{
    if s.predicated {
        return Instruction::Predicated(PredicatedProduct {
            op,
            tile: Tile(s.n0),
            pn: Predicate(s.n1),
            pm: Predicate(s.n2),
            zn: Vector(s.n3),
            zm: Vector(s.number),
        });
    }
    Instruction::Quarter(QuarterProduct {
        op,
        tile: Tile(s.n2),
        first: source_of(s.earlier, s.n3),
        second: source_of(s.pair, s.number),
    })
}

// A source by the last number in it, which in a pair is that of the second register; no line of a pair ends in 0.
fn source_of(pair: bool, n: u32) -> Source
    ensures { result ≡ source_of pair n }
{
    if pair {
        return isa::source_of(true, n.saturating_sub(1));
    }
    isa::source_of(false, n)
}

// The operation by its shape, its family and the letters of its name.
fn operation_of(line: &[u8], wide: bool, two_way: bool, predicated: bool) -> Operation
    ensures { result ≡ operation_of line.now wide two_way predicated }
{
    let one = one_sign(line);
    Operation {
        wide,
        two_way,
        u0: byte(line, 0) == b'u',
        u1: byte(line, second_at(one)) == b'u',
        subtract: byte(line, last_at(one, predicated)) == b's',
    }
}

// Whether the name's first letter stands for both sources.
fn one_sign(line: &[u8]) -> bool
    ensures { result ≡ one_sign line.now }
{
    byte(line, 1) == b'm'
}

// Where the letter of the second source stands.
fn second_at(one: bool) -> usize
    ensures { result ≡ second_at one }
{
    if one { 0 } else { 1 }
}

// Where the name's last letter stands: behind one sign or two, and mop or mop4.
fn last_at(one: bool, predicated: bool) -> usize
    ensures { result ≡ last_at one predicated }
{
    if one {
        return if predicated { 4 } else { 5 };
    }
    if predicated { 5 } else { 6 }
}

// One walk for every outer product. No line can make a number overflow.
#[tactic(auto, unfolding(crate::specs::Guess::scanned))]
fn scan(line: &[u8]) -> Scan
    ensures { result ≡ scanned fresh line.now }
{
    let mut s = Scan::default();
    for &b in line {
        s = s.step(b);
    }
    s
}

impl Scan {
    fn step(self, b: u8) -> Scan
        ensures { result ≡ stepped self b }
    {
        if b == b',' {
            return self.shift();
        }
        self.mark(b)
    }

    // The next operand begins.
    fn shift(self) -> Scan
        ensures { result ≡ shifted self }
    {
        Scan {
            n0: self.n1,
            n1: self.n2,
            n2: self.n3,
            n3: self.number,
            number: 0,
            earlier: self.pair,
            pair: false,
            ..self
        }
    }

    // A byte of the operand: d is a 64-bit tile's, h a halfword source's, a stroke a predicate's, a hyphen a pair's.
    fn mark(self, b: u8) -> Scan
        ensures { result ≡ marked self b }
    {
        Scan {
            wide: (b == b'd') | self.wide,
            half: (b == b'h') | self.half,
            predicated: (b == b'/') | self.predicated,
            number: number_after(self.number, b),
            pair: (b == b'-') | self.pair,
            ..self
        }
    }
}

// A z or a p starts a number anew, a digit goes on; the last two digits count.
fn number_after(n: u32, b: u8) -> u32
    ensures { result ≡ number_after n b }
{
    match b {
        b'z' | b'p' => 0,
        b'0'..=b'9' => n % 10 * 10 + (b - b'0') as u32,
        _ => n,
    }
}

// The mask of a ZERO's names: each adds its 64-bit tiles.
#[tactic(auto, unfolding(crate::specs::Guess::tiles_from))]
fn mask_of(line: &[u8]) -> u8
    ensures { result ≡ zero_mask line.now }
{
    if line.len() == ALL_LENGTH {
        return 255;
    }
    let mut mask = 0;
    let mut number = 0;
    for &b in line {
        mask = tiles_after(mask, number, b);
        number = number_after(number, b);
    }
    mask
}

// The mask behind a byte that may end the name of tile n.
fn tiles_after(mask: u8, n: u32, b: u8) -> u8
    ensures { result ≡ tiles_after mask n b }
{
    ((mask as u32 + share_of(b) * (1 << (n % 8))) % 256) as u8
}

// The 64-bit tiles of tile 0 of a size, as a mask.
fn share_of(b: u8) -> u32
    ensures { result ≡ share b }
{
    match b {
        b'd' => 0x01,
        b's' => 0x11,
        b'h' => 0x55,
        _ => 0,
    }
}

// The byte at a place, or 0 behind the line's end.
fn byte(line: &[u8], p: usize) -> u8
    ensures { result ≡ byte_at line.now p }
{
    line.get(p).copied().unwrap_or(0)
}
