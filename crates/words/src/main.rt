// Compares print and read, with every feature on, with a list on standard input. A line of the list is a word in eight
// hex digits, a space, and its text, or - if print must refuse it as unlisted; a line that starts with # is a comment.
// Then tells how many of its words miss which features where none is on.
#![tactic(auto)]

use checks::{Outcome, STDIN_FILENO, STDOUT_FILENO, Tally};
use isa::Refusal;
use refusals::Sums;

// What a room holds before it is printed into.
const FILL: u8 = 0x5A;

// Each text must be shorter than this.
const TEXT_ROOM: usize = 48;

// Where a line's text starts.
const TEXT_AT: usize = 9;

// What comes of a list, and what its words miss where no feature is on.
#[derive(Clone, Copy)]
pub struct Compared {
    tally: Tally,
    sums: Sums,
}

fn main() {
    let mut list = checks::input_room();
    let n = io::read_full(STDIN_FILENO, &mut list);
    if n == checks::INPUT_ROOM {
        checks::print("input too long\n");
        return;
    }
    report(compare(&list[..n]));
}

fn report(c: Compared) {
    c.tally.report(b"lines: ");
    c.sums.report();
}

// A last line with no line feed is malformed: the list may have been cut there.
fn compare(list: &[u8]) -> Compared {
    let mut tally = Tally::default();
    let mut sums = refusals::no_sums();
    for line in list.split_inclusive(|&byte| byte == b'\n') {
        let Some(line) = line.strip_suffix(b"\n") else {
            tally = tally.counted(Outcome::Malformed);
            break;
        };
        tally = tally.counted(line_outcome(line));
        sums = sums.with_sum(missed_by(line));
    }
    Compared { tally, sums }
}

// What the word of a line misses where no feature is on, if the line has one.
fn missed_by(line: &[u8]) -> u32 {
    word_of(line).map_or(0, |w| missing(0, w))
}

// What comes of a line, which is lent without its line feed.
fn line_outcome(line: &[u8]) -> Outcome {
    if line.is_empty() {
        return Outcome::Malformed;
    }
    if line[0] == b'#' {
        return Outcome::Comment;
    }
    if line.len() <= TEXT_AT {
        return Outcome::Malformed;
    }
    if line.len() - TEXT_AT >= TEXT_ROOM {
        return Outcome::Malformed;
    }
    if line[TEXT_AT - 1] != b' ' {
        return Outcome::Malformed;
    }
    match word_of(line) {
        Some(w) => word_outcome(w, &line[TEXT_AT..]),
        None => Outcome::Malformed,
    }
}

// The word at the start of a line.
fn word_of(line: &[u8]) -> Option<u32> {
    if line.len() < TEXT_AT {
        return None;
    }
    checks::hexadecimal_of(&line[..TEXT_AT - 1])
}

// A line agrees if print does in a room of 48 bytes, in one of the text's length, and in one a byte shorter, if read gives
// the word back, and if the word needs exactly the features that it misses where none is on.
fn word_outcome(w: u32, listed: &[u8]) -> Outcome {
    let mut room = [FILL; TEXT_ROOM];
    let agrees = match text::print(isa::ALL_FLAGS, w, &mut room) {
        Ok(n) => text_agrees(w, n, &room, listed),
        Err(refusal) => refusal_agrees(w, refusal, &room, listed),
    };
    if agrees {
        Outcome::Agreed
    } else {
        Outcome::Disagreed
    }
}

// Whether n bytes printed into room (told apart, as the bytes behind them are compared too) are what is listed, print keeps to rooms of n bytes and of one less, what is listed is
// read as the word, and its features agree.
fn text_agrees(w: u32, n: usize, room: &[u8], listed: &[u8]) -> bool {
    if !holds(room, n, listed) {
        return disagrees(w, "print ", checks::first(room, n), listed);
    }
    if !exact_room_agrees(w, n, listed) {
        return disagrees(w, "not so in a room of its length: ", listed, listed);
    }
    if !short_room_refused(w, n) {
        return disagrees(w, "not refused in a room a byte shorter: ", listed, listed);
    }
    if !reads_as(listed, w) {
        return disagrees(w, "not read back: ", listed, listed);
    }
    if !features_agree(w) {
        return disagrees(w, "misses other features than it needs: ", listed, listed);
    }
    true
}

// Whether room has a listed text in its first n bytes, and the bytes after it as they were. The mark of an unlisted
// word is no text.
fn holds(room: &[u8], n: usize, listed: &[u8]) -> bool {
    !marks_unlisted(listed) && n <= room.len() && &room[..n] == listed && untouched(&room[n..])
}

// Whether a room of n bytes gets the listed text too.
fn exact_room_agrees(w: u32, n: usize, listed: &[u8]) -> bool {
    let mut room = [FILL; TEXT_ROOM];
    print_into(w, n, &mut room).is_ok_and(|m| holds(&room, m, listed))
}

// Whether a room of n - 1 bytes is refused as too short, and left as it was.
fn short_room_refused(w: u32, n: usize) -> bool {
    if n == 0 {
        return false;
    }
    let mut room = [FILL; TEXT_ROOM];
    match print_into(w, n - 1, &mut room) {
        Ok(_) => false,
        Err(refusal) => refusal == Refusal::Room && untouched(&room),
    }
}

fn reads_as(line: &[u8], w: u32) -> bool {
    reader::read(isa::ALL_FLAGS, line) == Ok(w)
}

// Whether a word misses, where no feature is on, exactly those that it misses where each by itself is off, and is printed
// where these alone are on.
fn features_agree(w: u32) -> bool {
    let sum = missing(0, w);
    if sum as u64 != missing_one_by_one(w) {
        return false;
    }
    let mut room = [FILL; TEXT_ROOM];
    text::print(sum, w, &mut room).is_ok() & (sum != 0)
}

// The sum over the four features of what is missing where that one is off.
fn missing_one_by_one(w: u32) -> u64 {
    let sme = missing(isa::ALL_FLAGS - 1, w);
    let i16i64 = missing(isa::ALL_FLAGS - 2, w);
    let mop4 = missing(isa::ALL_FLAGS - 4, w);
    let sme2 = missing(isa::ALL_FLAGS - 8, w);
    sme as u64 + i16i64 as u64 + mop4 as u64 + sme2 as u64
}

// The sum that print hands back; 0 if none.
fn missing(flags: u32, w: u32) -> u32 {
    let mut room = [FILL; TEXT_ROOM];
    match text::print(flags, w, &mut room) {
        Ok(_) => 0,
        Err(refusal) => isa::missing_in(refusal),
    }
}

// Prints into the first n bytes of room, or into all if there are fewer.
fn print_into(w: u32, n: usize, room: &mut [u8]) -> Result<usize, Refusal> {
    let most = n.min(room.len());
    text::print(isa::ALL_FLAGS, w, &mut room[..most])
}

// Whether every byte is as the room was filled.
fn untouched(bytes: &[u8]) -> bool {
    bytes.iter().all(|&byte| byte == FILL)
}

fn marks_unlisted(listed: &[u8]) -> bool {
    listed == b"-".as_slice()
}

// Whether a refusal is what is listed, and left room as it was; if not, a line shows both.
fn refusal_agrees(w: u32, refusal: Refusal, room: &[u8], listed: &[u8]) -> bool {
    if refusal == Refusal::Unlisted && marks_unlisted(listed) && untouched(room) {
        return true;
    }
    io::print_hex(STDOUT_FILENO, u64::from(w), 8);
    checks::print(format_args!(": refused {}", refusals::Told(refusal)));
    write_listed(listed);
    false
}

// A line that shows what print did with a word, and what is listed; the answer is always false.
fn disagrees(w: u32, how: &str, text: &[u8], listed: &[u8]) -> bool {
    io::print_hex(STDOUT_FILENO, u64::from(w), 8);
    checks::print(format_args!(": {how}"));
    io::write_all(STDOUT_FILENO, text);
    write_listed(listed);
    false
}

fn write_listed(listed: &[u8]) {
    checks::print("; list ");
    io::write_all(STDOUT_FILENO, listed);
    checks::print("\n");
}
