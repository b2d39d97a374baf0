// Names of ZA's tiles, and for each ZERO mask the shortest list of them.
#![tactic(auto)]

mod lists;

ghost use Rattle.std.specs.Prelude.{◌≡◌};
ghost use Rattle.names.specs.Lists.{name_of};
ghost use Rattle.names.specs.Names.{za};

use isa::Tile;
pub use lists::list_of;

// A tile by the bytes of its elements and its number: 2 is .h, 4 is .s, 8 is .d, and 1 is za, all of it.
// The bytes are a number and no kind: `holds` reckons rows with them, and `digit_of` adds them.
#[derive(Clone, Copy)]
pub struct TileName {
    pub bytes: u32,
    pub tile: Tile,
}

// The name of a digit of a list. A list has digits 1 to 15; 0 gives za too, and a number above 15 a tile that ZA lacks.
pub fn name_of(digit: u16) -> TileName
    ensures { result ≡ name_of digit }
{
    match digit {
        0..=1 => named(1, 0),
        2..=3 => named(2, digit - 2),
        4..=7 => named(4, digit - 4),
        _ => named(8, digit - 8),
    }
}

fn named(bytes: u32, tile: u16) -> TileName
    ensures { result ≡ za bytes tile }
{
    TileName {
        bytes,
        tile: Tile(tile as u32),
    }
}
