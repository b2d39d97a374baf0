// Executes lists of words, with every feature and both modes on, and compares ZA afterwards with a checksum. Each word is
// executed singly: a run would refuse lists that add to what ZA held. The lists are on standard input; the head of the file
// stdin says what a line holds and how Z, P and ZA are made from its seed.
#![tactic(auto)]

ghost use Rattle.std.specs.Prelude.{◌≤◌, length, IfSome};

use checks::{Fill, Outcome, STDIN_FILENO, STDOUT_FILENO, Tally};
use machine::Bench;

const ALL_FEATURES: u32 = 15;

const LONGEST_VB: u32 = 256;

fn main() {
    let mut input = checks::input_room();
    let n = io::read_full(STDIN_FILENO, &mut input);
    if n == checks::INPUT_ROOM {
        checks::print("input too long\n");
        return;
    }
    compare(&input[..n]).report(b"lists: ");
}

fn compare(input: &[u8]) -> Tally {
    let mut t = Tally::default();
    for line in input.split_inclusive(|&byte| byte == b'\n') {
        t = t.counted(whole_line_outcome(line));
    }
    t
}

// What comes of a line, which is lent with its line feed. A last line with none is malformed: the input may have been cut there.
fn whole_line_outcome(line: &[u8]) -> Outcome {
    match line.strip_suffix(b"\n") {
        Some(line) => line_outcome(line),
        None => Outcome::Malformed,
    }
}

// What comes of a line, which is lent without its line feed; one that disagrees is shown.
fn line_outcome(line: &[u8]) -> Outcome {
    if line.is_empty() {
        return Outcome::Malformed;
    }
    if line[0] == b'#' {
        return Outcome::Comment;
    }
    match list_agrees(line) {
        Some(true) => Outcome::Agreed,
        Some(false) => {
            checks::print("disagrees: ");
            io::write_all(STDOUT_FILENO, line);
            checks::print("\n");
            Outcome::Disagreed
        }
        None => Outcome::Malformed,
    }
}

// Whether the list of a line agrees, if the line has one: five fields with a space between.
fn list_agrees(line: &[u8]) -> Option<bool> {
    let mut fields = line.splitn(5, |&byte| byte == b' ');
    let vb = decimal_of(fields.next()?)?;
    let seed = decimal_of(fields.next()?)?;
    let fill = fill_of(decimal_of(fields.next()?)?)?;
    let words = fields.next()?;
    let checksum = decimal_of(fields.next()?)?;
    if LONGEST_VB < vb {
        return None;
    }
    words_agree(vb as usize, seed, fill, words, checksum)
}

fn fill_of(number: u32) -> Option<Fill> {
    match number {
        0 => Some(Fill::Any),
        1 => Some(Fill::Edges),
        _ => None,
    }
}

fn words_agree(vb: usize, seed: u32, fill: Fill, text: &[u8], checksum: u32) -> Option<bool>
    requires { vb ≤ 256 }
{
    let mut room = [0u32; machine::MOST_WORDS];
    let n = read_words(text, &mut room)?;
    Some(agrees(vb, seed, fill, &room[..n], checksum))
}

// Reads words of eight digits with a comma between, and answers how many, if none is malformed and all have room. There is no
// heap, so that the words stand in a lent room.
fn read_words(text: &[u8], room: &mut [u32]) -> Option<usize>
    ensures { IfSome result (λ n. n ≤ length room.new) }
{
    let mut n = 0;
    for word in text.split(|&byte| byte == b',') {
        let slot = room.get_mut(n)?;
        if word.len() != 8 {
            return None;
        }
        *slot = checks::hexadecimal_of(word)?;
        n += 1;
    }
    Some(n)
}

// The number that decimal digits give, if there are any and it is below 2^32. `parse` would take a sign too, as in +5.
fn decimal_of(text: &[u8]) -> Option<u32> {
    if text.is_empty() {
        return None;
    }
    let mut n: u32 = 0;
    for &byte in text {
        let digit = char::from(byte).to_digit(10)?;
        n = n.checked_mul(10)?.checked_add(digit)?;
    }
    Some(n)
}

// Whether the list agrees; here the bench and the room for Z, P and ZA are made.
fn agrees(vb: usize, seed: u32, fill: Fill, words: &[u32], checksum: u32) -> bool
    requires { vb ≤ 256 }
{
    let mut z = io::large_buffer();
    let mut p = io::buffer();
    let mut za = io::large_buffer();
    let bench = Bench {
        flags: ALL_FEATURES,
        sm: true,
        za: true,
        vb,
    };
    let rows = vb * vb;
    leaves(
        bench,
        seed,
        fill,
        &mut z[..32 * vb],
        &mut p[..2 * vb],
        &mut za[..rows],
        words,
        checksum,
    )
}

// Whether every word is executed and leaves a ZA with the checksum. The bench and the buffers come one by one, here and below:
// `machine` takes them so, and would have a struct of them taken apart again at once.
fn leaves(
    bench: Bench,
    seed: u32,
    fill: Fill,
    z: &mut [u8],
    p: &mut [u8],
    za: &mut [u8],
    words: &[u32],
    checksum: u32,
) -> bool {
    let after_z = checks::generate(seed, fill, z);
    let after_p = checks::generate(after_z, fill, p);
    checks::generate(after_p, fill, za);
    executes(bench, z, p, za, words) && checksum_of(za) == u64::from(checksum)
}

// Whether no word is refused.
fn executes(bench: Bench, z: &[u8], p: &[u8], za: &mut [u8], words: &[u32]) -> bool {
    for &word in words {
        let outcome = machine::execute(bench, z, p, za, word);
        if outcome.is_err() {
            return false;
        }
    }
    true
}

fn checksum_of(bytes: &[u8]) -> u64 {
    let mut h: u64 = 0;
    for &byte in bytes {
        h = (h * 257 + u64::from(byte) + 1) % 4294967291;
    }
    h
}
