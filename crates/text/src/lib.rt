// The text of a word, as documents 01 and 02 spell it.
#![tactic(auto)]

mod line;

ghost use Rattle.std.specs.Prelude.{◌≡◌, true, length};
ghost use Rattle.isa.specs.Table.{in_range};
ghost use Rattle.isa.specs.Refusals.{number_in, missing_beside, value_in};
ghost use Rattle.text.specs.Printing.{print_of, room_after, print_number, print_missing, print_length};
ghost use Rattle.text.specs.Put.{printed_in, filled_with};

use isa::{Instruction, Refusal};
use line::Line;

// Puts the text of a word at the start of room, and answers its length. The bytes after it stay; refused, all of them do.
pub fn print(flags: u32, word: u32, room: &mut [u8]) -> Result<usize, Refusal>
    ensures answer { result ≡ print_of flags word (length room.old) }
    ensures room_after { room.new ≡ room_after flags word room.old }
    ensures number { number_in result ≡ print_number flags word (length room.old) }
    ensures missing { missing_beside result ≡ print_missing flags word (length room.old) }
    ensures len { value_in result ≡ print_length flags word (length room.old) }
{
    let i = isa::decode(flags, word)?;
    print_line(i, room)
}

// The line is spelt aside first: whether it fits is known only when it is whole.
fn print_line(i: Instruction, room: &mut [u8]) -> Result<usize, Refusal>
    requires { in_range i ≡ true }
    ensures answer { result ≡ printed_in i (length room.old) }
    ensures room_after { room.new ≡ filled_with i room.old }
{
    let mut line = Line::new();
    line.spell(i);
    let text = line.as_bytes();
    let n = text.len();
    if room.len() < n {
        return Err(Refusal::Room);
    }
    room[..n].copy_from_slice(text);
    Ok(n)
}
