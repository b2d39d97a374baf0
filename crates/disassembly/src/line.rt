// A line of a listing, put into a room part by part. Each `put` puts a text at `at` and answers the place after it.
// A struct over the lent room would be no plainer: each of its functions must promise too that it keeps the reference.
ghost use Rattle.std.specs.Prelude.{◌≡◌, ◌+◌, ◌<◌, ◌≤◌, ◌++◌, length};
ghost use Rattle.isa.specs.Refusals.{number};
ghost use Rattle.text.specs.Ascii.{ascii};
ghost use Rattle.text.specs.Spelling.{decimal};
ghost use Rattle.disassembly.specs.Listing.{hex_digit, field as field_of, said, line};
ghost use Rattle.disassembly.specs.Pieces.{longest_line};
ghost use Rattle.disassembly.specs.Put.{Put};

use isa::Refusal;

// The bytes of the longest line: two numbers of eight digits, two spaces, a text of 47 bytes and a line feed.
pub const LONGEST_LINE: usize = 66;

// The bytes of the line of an odd end.
pub const END_LINE: usize = 6;

// The line of a word at an address.
pub(crate) fn put_line(room: &mut [u8], at: usize, address: u32, word: u32) -> usize
    requires { at + longest_line ≤ length room.old }
    ensures { Put room.old at room.new result (line address word) }
{
    let a = put(room, at, &field(address));
    let b = put(room, a, &field(word));
    let c = put_said(room, b, word);
    put(room, c, b"\n")
}

// The text of a word, or - and the number of its refusal.
fn put_said(room: &mut [u8], at: usize, word: u32) -> usize
    requires { at + 47 ≤ length room.old }
    ensures { Put room.old at room.new result (said word) }
{
    match text::print(isa::ALL_FLAGS, word, &mut room[at..]) {
        Ok(n) => at + n,
        Err(r) => put_refusal(room, at, r),
    }
}

fn put_refusal(room: &mut [u8], at: usize, r: Refusal) -> usize
    requires { (at + 2 ≤ length room.old) × (number r < 10) }
    ensures { Put room.old at room.new result (ascii "-" ++ decimal (number r)) }
{
    let text = [b'-', b'0' + isa::number(r) as u8];
    put(room, at, &text)
}

// Eight hexadecimal digits and a space; by their places, as the shifts go by these. A digit is made by hand here: the promise is of
// each byte, and a text made by format_args! would have to be copied to its place.
#[tactic(auto, using(crate::proofs::Lines::digit_more), unfolding(crate::specs::Listing::hexadecimal))]
fn field(v: u32) -> [u8; 9]
    ensures { result ≡ field_of v }
{
    let mut text = [b' '; 9];
    for i in 0..8 {
        text[i] = hex_digit((v >> (28 - 4 * i)) % 16);
    }
    text
}

fn hex_digit(d: u32) -> u8
    requires { d < 16 }
    ensures { result ≡ hex_digit d }
{
    if d < 10 {
        return b'0' + d as u8;
    }
    b'a' - 10 + d as u8
}

// All bytes of text.
#[tactic(auto, using(storage::proofs::Bytes::part_put))]
pub(crate) fn put(room: &mut [u8], at: usize, text: &[u8]) -> usize
    requires { at + length text.now ≤ length room.old }
    ensures { Put room.old at room.new result text.now }
{
    let end = at + text.len();
    room[at..end].copy_from_slice(text);
    end
}
