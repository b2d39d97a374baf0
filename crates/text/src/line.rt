// Spells an instruction on a line, part by part: each `put` puts a text behind what stands there.
ghost use Rattle.std.specs.Prelude.{◌≡◌, true, List, [], ◌∷◌, ◌++◌, map, ℕ, ◌+◌, ◌/◌, ◌%◌, ◌≤◌, ◌<◌, length, take};
ghost use Rattle.isa.specs.Table.{in_range, register, element_bytes};
ghost use Rattle.names.specs.Lists.{names_in};
ghost use Rattle.text.specs.Ascii.{ascii};
ghost use Rattle.text.specs.Spelling.{spelling, name_text, decimal, signs, mnemonic, tile_name, predicate_name, vector_name, suffix, source_name};
ghost use Rattle.text.specs.Put.{first_name_at, listed, behind, shown};

use isa::{
    Instruction, Operation, Predicate, PredicatedProduct, QuarterProduct, Source, Tile, Vector,
};
use names::TileName;
use std::marker::Model;

// Where ZERO's first name goes: the length of `zero {`.
const FIRST_NAME_AT: usize = 6;

// A line as far as it is spelt: 47 bytes at most, and one more for a tile's number of two digits, which no tile has. An array and
// its length, as nothing here is on the heap. Its methods say how many bytes they put at most, so that a caller can add these up.
#[derive(Drop)]
pub(crate) struct Line {
    bytes: [u8; 48],
    len: usize,
}

impl Model for Line {
    ghost Value = { List ℕ };

    ghost view = { λ l. take l.len l.bytes };

    ghost invariant = { λ l. l.len ≤ 48 };
}

impl Line {
    pub(crate) fn new() -> Line
        ensures { result ≡ [] }
    {
        Line {
            bytes: [0; 48],
            len: 0,
        }
    }

    fn len(&self) -> usize
        ensures { result ≡ length self.now }
    {
        self.len
    }

    pub(crate) fn as_bytes(&self) -> &[u8]
        ensures { result.now ≡ self.now }
    {
        &self.bytes[..self.len]
    }

    // The line of an instruction. It is spelt where it lies: answered as a value, it would be copied.
    pub(crate) fn spell(&mut self, i: Instruction)
        requires { (self.old ≡ []) × (in_range i ≡ true) }
        ensures { self.new ≡ spelling i }
    {
        match i {
            Instruction::Predicated(p) => self.put_predicated(p),
            Instruction::Quarter(q) => self.put_quarter(q),
            Instruction::Zero(mask) => self.put_zero(mask),
        }
    }

    // Mnemonic, tile, two predicates and two vectors.
    fn put_predicated(&mut self, p: PredicatedProduct)
        requires { (self.old ≡ []) × (in_range (Instruction.Predicated p) ≡ true) }
        ensures { self.new ≡ spelling (Instruction.Predicated p) }
    {
        self.put_heading(b"mop", p.op, p.tile);
        self.put_predicates(p.pn, p.pm);
        self.put_vectors(isa::source_bytes(p.op), p.zn, p.zm);
    }

    // Mnemonic, tile and two sources, each a register or a pair.
    fn put_quarter(&mut self, q: QuarterProduct)
        requires { (self.old ≡ []) × (in_range (Instruction.Quarter q) ≡ true) }
        ensures { self.new ≡ spelling (Instruction.Quarter q) }
    {
        let bytes = isa::source_bytes(q.op);
        self.put_heading(b"mop4", q.op, q.tile);
        self.put_source(bytes, q.first);
        self.put_source(bytes, q.second);
    }

    // The names between braces; with none, nothing stands between them.
    fn put_zero(&mut self, mask: u8)
        requires { self.old ≡ [] }
        ensures { self.new ≡ spelling (Instruction.Zero mask) }
    {
        self.put(b"zero {");
        self.put_names(names::list_of(mask));
        if self.len() == FIRST_NAME_AT {
            return self.put(b"}");
        }
        self.put(b" }")
    }

    // The names of a list, in its order, behind the opening brace.
    fn put_names(&mut self, list: u16)
        requires { length self.old ≡ first_name_at }
        ensures put { self.new ≡ self.old ++ shown (map name_text (names_in list)) }
        ensures short { length self.new ≤ length self.old + 32 }
    {
        for i in 0_u32..4 {
            self.put_listed((list >> (4 * i)) % 16);
        }
    }

    // The name of a digit, if it is one; the first has no comma before it.
    fn put_listed(&mut self, digit: u16)
        requires { (length self.old + 8 ≤ 48) × (digit < 16) }
        ensures put { self.new ≡ self.old ++ listed (length self.old) digit }
        ensures short { length self.new ≤ length self.old + 8 }
    {
        if digit == 0 {
            return;
        }
        let name = names::name_of(digit);
        if self.len() == FIRST_NAME_AT {
            return self.put_tile(b" za", name);
        }
        self.put_tile(b", za", name)
    }

    // A lead that ends with za, and what the name has behind it: all of ZA has nothing there.
    fn put_tile(&mut self, lead: &[u8], name: TileName)
        requires { (length self.old + length lead.now + 4 ≤ 48) × (name.tile.0 < 100) }
        ensures put { self.new ≡ self.old ++ behind lead.now name }
        ensures short { length self.new ≤ length self.old + length lead.now + 4 }
    {
        if name.bytes == 1 {
            return self.put(lead);
        }
        self.put_name(lead, name.tile.0, b'.', suffix_letter(name.bytes))
    }

    // What both families begin with: the mnemonic and the tile.
    fn put_heading(&mut self, stem: &[u8], op: Operation, tile: Tile)
        requires { (length self.old + 14 ≤ 48) × (length stem.now ≤ 4) × (tile.0 < 100) }
        ensures put { self.new ≡ self.old ++ (mnemonic stem.now op ++ ascii " " ++ tile_name (element_bytes op) tile) }
        ensures short { length self.new ≤ length self.old + 14 }
    {
        let letter = suffix_letter(isa::element_bytes(op));
        self.put_mnemonic(stem, op);
        self.put_name(b" za", tile.0, b'.', letter);
    }

    // Which sources are unsigned, the family's stem, and a to add or s to subtract.
    fn put_mnemonic(&mut self, stem: &[u8], op: Operation)
        requires { (length self.old + 7 ≤ 48) × (length stem.now ≤ 4) }
        ensures put { self.new ≡ self.old ++ mnemonic stem.now op }
        ensures short { length self.new ≤ length self.old + 7 }
    {
        self.put_signs(op.u0, op.u1);
        self.put(stem);
        if op.subtract {
            return self.put(b"s");
        }
        self.put(b"a")
    }

    // u for an unsigned source and s for a signed one; two of a kind are written once.
    fn put_signs(&mut self, u0: bool, u1: bool)
        requires { length self.old + 2 ≤ 48 }
        ensures put { self.new ≡ self.old ++ signs u0 u1 }
        ensures short { length self.new ≤ length self.old + 2 }
    {
        match (u0, u1) {
            (true, true) => self.put(b"u"),
            (true, false) => self.put(b"us"),
            (false, true) => self.put(b"su"),
            (false, false) => self.put(b"s"),
        }
    }

    // Both predicates, each behind a comma.
    fn put_predicates(&mut self, pn: Predicate, pm: Predicate)
        requires { (length self.old + 14 ≤ 48) × (pn.0 < 100) × (pm.0 < 100) }
        ensures put { self.new ≡ self.old ++ (ascii ", " ++ predicate_name pn ++ (ascii ", " ++ predicate_name pm)) }
        ensures short { length self.new ≤ length self.old + 14 }
    {
        self.put_name(b", p", pn.0, b'/', b'm');
        self.put_name(b", p", pm.0, b'/', b'm');
    }

    // Both vectors, each behind a comma; their elements have so many bytes.
    fn put_vectors(&mut self, bytes: u32, zn: Vector, zm: Vector)
        requires { (length self.old + 14 ≤ 48) × (zn.0 < 100) × (zm.0 < 100) }
        ensures put { self.new ≡ self.old ++ (ascii ", " ++ vector_name bytes zn.0 ++ (ascii ", " ++ vector_name bytes zm.0)) }
        ensures short { length self.new ≤ length self.old + 14 }
    {
        let letter = suffix_letter(bytes);
        self.put_name(b", z", zn.0, b'.', letter);
        self.put_name(b", z", zm.0, b'.', letter);
    }

    // A quarter-tile source behind a comma.
    fn put_source(&mut self, bytes: u32, s: Source)
        requires { (length self.old + 17 ≤ 48) × (register s < 31) }
        ensures put { self.new ≡ self.old ++ (ascii ", " ++ source_name bytes s) }
        ensures short { length self.new ≤ length self.old + 17 }
    {
        match s {
            Source::One(v) => self.put_name(b", z", v.0, b'.', suffix_letter(bytes)),
            Source::Pair(v) => self.put_pair(bytes, v),
        }
    }

    // A pair by both its registers, in braces.
    fn put_pair(&mut self, bytes: u32, v: Vector)
        requires { (length self.old + 17 ≤ 48) × (v.0 < 31) }
        ensures put { self.new ≡ self.old ++ (ascii ", " ++ source_name bytes (Source.Pair v)) }
        ensures short { length self.new ≤ length self.old + 17 }
    {
        let letter = suffix_letter(bytes);
        self.put_name(b", { z", v.0, b'.', letter);
        self.put_name(b"-z", v.0 + 1, b'.', letter);
        self.put(b" }");
    }

    // A register's name: what leads up to its number, the number, and a suffix of a mark and a letter.
    fn put_name(&mut self, lead: &[u8], n: u32, mark: u8, letter: u8)
        requires { (length self.old + length lead.now + 4 ≤ 48) × (n < 100) }
        ensures put { self.new ≡ self.old ++ (lead.now ++ decimal n ++ (mark ∷ letter ∷ [])) }
        ensures short { length self.new ≤ length self.old + length lead.now + 4 }
    {
        self.put(lead);
        self.put_decimal(n);
        self.put(&[mark, letter]);
    }

    // A number below 100, without leading zeros. By hand: the promise is of each byte, and a text made by format_args! would have to be
    // copied to its place.
    fn put_decimal(&mut self, n: u32)
        requires { (length self.old + 2 ≤ 48) × (n < 100) }
        ensures put { self.new ≡ self.old ++ decimal n }
        ensures short { length self.new ≤ length self.old + 2 }
    {
        if n < 10 {
            return self.put(&[b'0' + n as u8]);
        }
        self.put(&[b'0' + (n / 10) as u8, b'0' + (n % 10) as u8])
    }

    // All bytes of text.
    fn put(&mut self, text: &[u8])
        requires { length self.old + length text.now ≤ 48 }
        ensures put { self.new ≡ self.old ++ text.now }
        ensures len { length self.new ≡ length self.old + length text.now }
    {
        let end = self.len + text.len();
        for (k, byte) in self.bytes[self.len..end].iter_mut().enumerate() {
            *byte = text[k];
        }
        self.len = end;
    }
}

// The suffix of a name is a full stop and this letter, by the bytes of an element.
fn suffix_letter(bytes: u32) -> u8
    ensures { suffix bytes ≡ ascii "." ++ (result ∷ []) }
{
    match bytes {
        1 => b'b',
        2 => b'h',
        4 => b's',
        _ => b'd',
    }
}
