// Lists a file of words: little-endian words on standard input, of any length, and a line for each on standard output, with its
// address, the word and its text, or - and the refusal number; an odd end of one to three bytes has a last line, `end` and how many
// they are. Every feature is on. What is read is listed and written at once. A read or a write that fails is told on standard error.
#![tactic(auto)]

ghost use Rattle.std.specs.Prelude.{◌≡◌, ◌++◌, ◌-◌, ◌^◌, ◌≤◌, length, drop};
ghost use Rattle.disassembly.specs.Pieces.{lines_for, end_for, end_room, listed_all};
ghost use Rattle.disassembly.specs.Claims.{room_for};
ghost use Rattle.lister.specs.Reads.{most_read};

use checks::STDOUT_FILENO;
use disassembly::{Advance, Place};
use std::io::Read;

// Room for the lines of what is read at once, 4,096 bytes: 1,024 words.
const ROOM: usize = 1024 * disassembly::LONGEST_LINE;

fn main(rt: HostRuntime) {
    let mut room = lines_room();
    let mut place = disassembly::start();
    for _ in 0..most_reads() {
        let Some(behind) = read_and_list(&rt, place, &mut room) else {
            return;
        };
        place = behind;
    }
    checks::eprint(format_args!("the input is read no further, and is not listed whole\n"));
}

fn lines_room() -> [u8; ROOM]
    ensures { room_for most_read ≡ length result }
{
    [0; ROOM]
}

// A loop has to end, and nothing says that an input does. No input takes so many reads.
fn most_reads() -> u64
    ensures { result ≡ 2 ^ 64 - 1 }
{
    u64::MAX
}

// Reads once, and lists what came. The listing goes on from the place, or is over where there is none. A read that fails is no
// end.
fn read_and_list(rt: &HostRuntime, place: Place, room: &mut [u8]) -> Option<Place>
    requires { room_for most_read ≤ length room.old }
{
    let mut piece = io::buffer();
    let Ok(n) = rt.stdin().read(&mut piece) else {
        checks::eprint(format_args!(
            "the input can't be read to its end, and is not listed whole\n"
        ));
        return None;
    };
    if n == 0 {
        let end = put_end(place, room);
        write(checks::first(room, end));
        return None;
    }
    let listed = list_whole(place, &piece[..n], room);
    if !write(checks::first(room, listed.written)) {
        return None;
    }
    Some(listed.place)
}

// Lists all of a piece, at the start of a room that is large enough.
fn list_whole(place: Place, piece: &[u8], room: &mut [u8]) -> Advance
    requires { room_for (length piece.now) ≤ length room.old }
    ensures answer { result ≡ listed_all place piece.now }
    ensures room_after { room.new ≡ lines_for place piece.now ++ drop (length (lines_for place piece.now)) room.old }
{
    disassembly::list(place, piece, room)
}

// Puts the line of an odd end, if there is one, at the start of a room that holds it, and answers its length.
fn put_end(place: Place, room: &mut [u8]) -> usize
    requires { end_room ≤ length room.old }
    ensures answer { result ≡ length (end_for place) }
    ensures room_after { room.new ≡ end_for place ++ drop (length (end_for place)) room.old }
{
    disassembly::finish(place, room).unwrap_or(0)
}

fn write(text: &[u8]) -> bool {
    let written = io::write_all(STDOUT_FILENO, text);
    if !written {
        checks::eprint(format_args!("standard output did not take the whole listing\n"));
    }
    written
}
