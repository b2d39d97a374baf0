// The updates that are compared: what the number of a case says, and what is drawn for it.
ghost use Rattle.std.specs.Prelude.{◌<◌};
ghost use Rattle.outer.specs.Products.{Shaped, GoodPredication, GoodOperand};
ghost use Rattle.walks.specs.Room.{Room, Drawn};

use checks::{Fill, generate, next};
use isa::{Predicate, Tile, Vector};
use outer::{Operand, OuterProduct, Predication};
use std::fmt;

// Updates on vectors of vb bytes, with so many products to a tile element of `element` bytes, of the quarter-tile family or of
// the predicated one.
#[derive(Clone, Copy)]
pub struct Kind {
    pub vb: usize,
    pub element: usize,
    pub products: usize,
    pub quarter: bool,
}

// Add and subtract, each source signed and unsigned (both alike in the 2-way forms), four sorts of sources (single registers and
// pairs, or sparse and full predicates) and three fills.
pub const CASES: u32 = 2 * 4 * 4 * 3;

// A case of register pairs and of full predicates.
pub const TIMED_CASE: u32 = 24;

impl fmt::Display for Kind {
    fn fmt<W: fmt::Write>(&self, f: &mut fmt::Formatter<W>) -> fmt::Result {
        let family = if self.quarter {
            "quarter-tile"
        } else {
            "predicated"
        };
        let bits = if self.element == 8 { 64 } else { 32 };
        write!(
            f,
            "VB {}, {family}, {}-way, {bits}-bit",
            self.vb, self.products
        )
    }
}

// Fills the buffers for a case from the stream that its number starts, ZA's three alike, and draws its outer product.
// A struct over the lent buffers would be no plainer: each function would have to promise too that it keeps the references.
pub(crate) fn draw(
    kind: Kind,
    n: u32,
    z: &mut [u8],
    p: &mut [u8],
    za: &mut [u8],
    plain: &mut [u8],
    start: &mut [u8],
) -> OuterProduct
    requires { Room kind z.old p.old za.old plain.old start.old }
    ensures drawn { Drawn kind result }
    ensures room { Room kind z.new p.new za.new plain.new start.new }
{
    let fill = fill_of(n / 32);
    let after_z = generate(seed_of(kind, n), fill, z);
    let after_p = draw_predicates(after_z, n / 8 % 4, p);
    let after_za = draw_alike(after_p, fill, za, plain, start);
    outer_product(kind, n, after_za)
}

// Its own for each kind of one length.
fn seed_of(kind: Kind, n: u32) -> u32 {
    let seed = n.wrapping_add(shape_seed(kind));
    if kind.quarter {
        seed.wrapping_add(2000)
    } else {
        seed
    }
}

fn shape_seed(kind: Kind) -> u32 {
    if kind.element == 8 {
        return 1000;
    }
    if kind.products == 2 {
        return 4000;
    }
    0
}

fn draw_alike(x: u32, fill: Fill, za: &mut [u8], plain: &mut [u8], start: &mut [u8]) -> u32 {
    generate(x, fill, start);
    generate(x, fill, plain);
    generate(x, fill, za)
}

fn fill_of(n: u32) -> Fill {
    match n {
        0 => Fill::Any,
        1 => Fill::Edges,
        _ => Fill::Ends,
    }
}

// Sets about a quarter, a half or three quarters of the predicates' bits, or all.
fn draw_predicates(x: u32, quarters: u32, p: &mut [u8]) -> u32 {
    let mut x = x;
    for byte in p.iter_mut() {
        let y = next(x);
        x = next(y);
        *byte = predicate_byte(quarters, byte_of(y), byte_of(x));
    }
    x
}

fn byte_of(x: u32) -> u8 {
    (x / 65536 % 256) as u8
}

fn predicate_byte(quarters: u32, a: u8, b: u8) -> u8 {
    match quarters {
        0 => a & b,
        1 => a,
        2 => a | b,
        _ => 255,
    }
}

fn outer_product(kind: Kind, n: u32, x: u32) -> OuterProduct
    requires { Shaped kind.element kind.products }
    ensures { Drawn kind result }
{
    let y = next(x);
    let element = kind.element;
    let tile = high_bits(next(y)) as usize % element;
    OuterProduct {
        element,
        products: kind.products,
        tile: Tile(tile as u32),
        first: source(x, kind.quarter, n / 8 % 2 == 1, n / 2 % 2 == 1),
        second: source(y, kind.quarter, n / 16 % 2 == 1, second_unsigned(kind, n)),
        subtract: n % 2 == 1,
    }
}

// The 2-way forms have one sign for both sources.
fn second_unsigned(kind: Kind, n: u32) -> bool {
    if kind.products == 2 {
        return n / 2 % 2 == 1;
    }
    n / 4 % 2 == 1
}

// Twelve of them: the lower ones come again after as many steps as ZA has bytes.
fn high_bits(x: u32) -> u32 {
    x / 0x10_0000
}

// A predicated source's register and predicate, a quarter-tile one's register, or registers if it is a pair.
fn source(x: u32, quarter: bool, pair: bool, unsigned: bool) -> Operand
    ensures { GoodOperand result }
{
    let drawn = high_bits(x);
    let two = quarter & pair;
    let low = if two { drawn % 31 } else { drawn % 32 };
    let high = if two { low + 1 } else { low };
    let predication = if quarter {
        Predication::Unpredicated
    } else {
        Predication::By(Predicate(drawn / 32 % 16))
    };
    Operand {
        low: Vector(low),
        high: Vector(high),
        predication,
        unsigned,
    }
}
