// The bench: room for Z, P and ZA at vector lengths up to 32 bytes, what is set there, and guarded calls of what is tested.
ghost use Rattle.std.specs.Prelude.{◌≡◌, ◌<◌};
ghost use Rattle.outer.specs.Products.{Shaped, GoodPredication, GoodOperand};

use isa::{Predicate, Tile, Vector};
use outer::{Operand, OuterProduct, Predication};

// An outer product on a tile. The predicated forms read registers 1 and 2 under predicates 1 and 2, the quarter-tile forms
// registers 2 and 18 or the pairs that start there. The 2-way forms are on 32-bit tiles only.
#[derive(Clone, Copy)]
pub struct Case {
    pub vb: usize,
    pub wide: bool,
    pub two_way: bool,
    pub quarter: bool,
    pub first_pair: bool,
    pub second_pair: bool,
    pub tile: u32,
    pub u0: bool,
    pub u1: bool,
    pub subtract: bool,
}

// A 4-way case of signed sources, added to a tile.
pub(crate) fn predicated(vb: usize, wide: bool, tile: u32) -> Case {
    Case {
        vb,
        wide,
        two_way: false,
        quarter: false,
        first_pair: false,
        second_pair: false,
        tile,
        u0: false,
        u1: false,
        subtract: false,
    }
}

// The same of the quarter-tile family, on tile 0 and of single registers.
pub(crate) fn quarter(vb: usize, wide: bool) -> Case {
    Case {
        quarter: true,
        ..predicated(vb, wide, 0)
    }
}

impl Case {
    pub(crate) fn with_pairs(self, first_pair: bool, second_pair: bool) -> Case {
        Case {
            first_pair,
            second_pair,
            ..self
        }
    }

    pub(crate) fn as_two_way(self) -> Case {
        Case {
            two_way: true,
            ..self
        }
    }

    pub(crate) fn with_signs(self, u0: bool, u1: bool) -> Case {
        Case { u0, u1, ..self }
    }

    pub(crate) fn subtracted(self) -> Case {
        Case {
            subtract: true,
            ..self
        }
    }

    // Whether source elements have 16 bits, and not 8.
    fn has_halfwords(self) -> bool {
        self.wide | self.two_way
    }
}

pub(crate) fn first_register(c: Case) -> usize {
    if c.quarter { 2 } else { 1 }
}

pub(crate) fn second_register(c: Case) -> usize {
    if c.quarter { 18 } else { 2 }
}

// A source: of a predicated case register n by predicate n, else register m, or the pair that it begins.
fn source_of(c: Case, n: u32, m: u32, pair: bool, unsigned: bool) -> Operand
    requires { (n < 8) × (m < 31) }
    ensures { GoodOperand result }
{
    let (low, high, predication) = if c.quarter {
        (m, if pair { m + 1 } else { m }, Predication::Unpredicated)
    } else {
        (n, n, Predication::By(Predicate(n)))
    };
    Operand {
        low: Vector(low),
        high: Vector(high),
        predication,
        unsigned,
    }
}

// The bytes of a tile element, and how many products come to it.
#[derive(Clone, Copy)]
pub struct Shape(pub usize, pub usize);

fn shape_of(c: Case) -> Shape
    ensures { Shaped result.0 result.1 }
{
    if c.wide {
        return Shape(8, 4);
    }
    if c.two_way {
        return Shape(4, 2);
    }
    Shape(4, 4)
}

fn outer_product(c: Case) -> OuterProduct
    ensures { Shaped result.element result.products × (result.tile.0 ≡ c.tile) × GoodOperand result.first × GoodOperand result.second }
{
    let shape = shape_of(c);
    OuterProduct {
        element: shape.0,
        products: shape.1,
        tile: Tile(c.tile),
        first: source_of(c, 1, 2, c.first_pair, c.u0),
        second: source_of(c, 2, 18, c.second_pair, c.u1),
        subtract: c.subtract,
    }
}

// Updates the part of za that ZA has at the case's vector length, 16 or 32. Does nothing if what an update requires does not hold.
pub(crate) fn run(c: Case, z: &[u8], p: &[u8], za: &mut [u8]) {
    let vb = c.vb;
    if !storage::is_legal(vb) {
        return;
    }
    let (z_size, p_size, za_size) = (32 * vb, 2 * vb, vb * vb);
    if z.len() < z_size || p.len() < p_size || za.len() < za_size {
        return;
    }
    let o = outer_product(c);
    if (c.tile as usize) < o.element {
        outer::update(vb, o, &z[..z_size], &p[..p_size], &mut za[..za_size]);
    }
}

// Clears rows of the part of za that ZA has at a vector length, 16 or 32. Does nothing if what clearing requires does not hold.
pub(crate) fn clear(vb: usize, mask: u8, za: &mut [u8]) {
    if !storage::is_legal(vb) {
        return;
    }
    let za_size = vb * vb;
    if za.len() < za_size {
        return;
    }
    outer::clear_tiles(vb, mask, &mut za[..za_size]);
}

pub(crate) fn set_byte(s: &mut [u8], i: usize, v: u8) {
    if let Some(byte) = s.get_mut(i) {
        *byte = v;
    }
}

// What the bytes of a row are set to: each even and each odd byte, or 0, 1, 2, .. in its bytes or in its halfwords.
#[derive(Clone, Copy)]
pub enum Pattern {
    Bytes(u8, u8),
    Ramp,
    HalfwordRamp,
}

pub(crate) fn set_row(s: &mut [u8], width: usize, row: usize, even: u8, odd: u8) {
    set_pattern(s, width, row, Pattern::Bytes(even, odd));
}

// Every element of a register is set to v, or the elements to 0, 1, 2, ..

pub(crate) fn set_elements(z: &mut [u8], c: Case, register: usize, v: u8) {
    let odd = if c.has_halfwords() { 0 } else { v };
    set_row(z, c.vb, register, v, odd);
}

pub(crate) fn set_ramp(z: &mut [u8], c: Case, register: usize) {
    let ramp = if c.has_halfwords() {
        Pattern::HalfwordRamp
    } else {
        Pattern::Ramp
    };
    set_pattern(z, c.vb, register, ramp);
}

// Sets a row, of rows of a width.
fn set_pattern(s: &mut [u8], width: usize, row: usize, pattern: Pattern) {
    if width == 0 {
        return;
    }
    for (i, byte) in s.iter_mut().enumerate() {
        if i / width == row {
            *byte = pattern.byte(i % width);
        }
    }
}

impl Pattern {
    fn byte(self, i: usize) -> u8 {
        match self {
            Pattern::Bytes(even, _) if i % 2 == 0 => even,
            Pattern::Bytes(_, odd) => odd,
            Pattern::Ramp => (i % 256) as u8,
            Pattern::HalfwordRamp if i % 2 == 0 => (i / 2 % 256) as u8,
            Pattern::HalfwordRamp => 0,
        }
    }
}
