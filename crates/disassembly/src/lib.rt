// The listing of a file of words, piece by piece: a line for each little-endian word, and one for an odd end.
#![tactic(auto)]

mod input;
mod line;

ghost use Rattle.std.specs.Prelude.{◌≡◌, ◌+◌, ◌*◌, ◌/◌, ◌≤◌, length};
ghost use Rattle.std.proofs.lemmas.List.Edits.{sets};
ghost use Rattle.isa.specs.Refusals.{number_in, missing_beside, value_in};
ghost use Rattle.disassembly.specs.Pieces.{at_start, joined, lines_for, longest_line, listed_all, list_of, room_listed, finish_of, room_finished, finish_number, finish_missing, finish_length};

use input::Input;
use isa::Refusal;
pub use line::{END_LINE, LONGEST_LINE};

// The bytes of a word that have come so far. A kind for each number of them: an array with a length beside it could have too many.
#[derive(Clone, Copy)]
pub enum Begun {
    Nothing,
    One(u8),
    Two(u8, u8),
    Three(u8, u8, u8),
}

// Where a listing stands between two pieces: the address of the next word, modulo 2^32, and what has come of it.
#[derive(Clone, Copy)]
pub struct Place {
    pub address: u32,
    pub begun: Begun,
}

// Where it stands behind a piece, how many bytes of the piece were taken, and how many were written.
#[derive(Clone, Copy)]
pub struct Advance {
    pub place: Place,
    pub taken: usize,
    pub written: usize,
}

// Where every listing begins.
pub fn start() -> Place
    ensures { result ≡ at_start }
{
    Place {
        address: 0,
        begun: Begun::Nothing,
    }
}

// Puts the lines of the words that a piece completes at the start of room; the bytes after them stay. No more of it is taken than
// has room whatever the words are: LONGEST_LINE for each word that it may complete takes all of it.
pub fn list(place: Place, piece: &[u8], room: &mut [u8]) -> Advance
    ensures answer { result ≡ list_of place piece.now (length room.old) }
    ensures room_after { room.new ≡ room_listed place piece.now room.old }
{
    let most = 4 * (room.len() / LONGEST_LINE) + 3 - place.begun.count();
    let taken = piece.len().min(most);
    list_all(place, &piece[..taken], room)
}

// Puts the line of an odd end, if there is one, at the start of room; the bytes after it stay. Refused, all of them do.
pub fn finish(place: Place, room: &mut [u8]) -> Result<usize, Refusal>
    ensures answer { result ≡ finish_of place (length room.old) }
    ensures room_after { room.new ≡ room_finished place room.old }
    ensures number { number_in result ≡ finish_number place (length room.old) }
    ensures missing { missing_beside result ≡ finish_missing place (length room.old) }
    ensures len { value_in result ≡ finish_length place (length room.old) }
{
    let n = place.begun.count();
    if n == 0 {
        return Ok(0);
    }
    if room.len() < END_LINE {
        return Err(Refusal::Room);
    }
    let text = [b'e', b'n', b'd', b' ', b'0' + n as u8, b'\n'];
    Ok(line::put(room, 0, &text))
}

// All of a piece, for which there is room.
fn list_all(place: Place, piece: &[u8], room: &mut [u8]) -> Advance
    requires { length (joined place piece.now) ≤ 4 * (length room.old / longest_line) + 3 }
    ensures answer { result ≡ listed_all place piece.now }
    ensures room_after { room.new ≡ sets room.old 0 (lines_for place piece.now) }
{
    let input = Input {
        begun: place.begun,
        piece,
    };
    let words = input.len() / 4;
    let mut address = place.address;
    let mut at = 0;
    for k in 0..words {
        at = line::put_line(room, at, address, input.word_at(4 * k));
        address = address.wrapping_add(4);
    }
    Advance {
        place: Place {
            address,
            begun: input.rest_from(4 * words),
        },
        taken: piece.len(),
        written: at,
    }
}
