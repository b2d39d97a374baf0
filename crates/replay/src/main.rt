// Replays a capture: the file on standard input is read and run, and written to standard output with ZA as the run left it. A
// report goes to standard error: the bench, how many words were executed, where the run stopped and why, and which bytes of ZA
// changed. A file that is refused is told there, and nothing is written.
#![tactic(auto)]

ghost use Rattle.std.specs.Prelude.{◌≡◌, ◌*◌, ◌-◌, ◌≤◌, ◌<◌, length, drop};
ghost use Rattle.machine.specs.Machine.{on};
ghost use Rattle.machine.specs.Lists.{run_of, run_left};
ghost use Rattle.capture.specs.Format.{capture_of};
ghost use Rattle.capture.specs.Outcomes.{buffers, write_of, room_written, longest, Roomy};
ghost use Rattle.replay.specs.Replays.{Replays, told};
ghost use Rattle.replay.specs.Changes.{changed_in};

use checks::{InputError, STDERR_FILENO, STDOUT_FILENO};
use isa::Refusal;
use machine::{Bench, Ended};

// A file that was run: on which bench, so many words, how the run ended, and as how many bytes it stands in a room.
#[derive(Clone, Copy)]
pub struct Ran {
    pub bench: Bench,
    pub words: usize,
    pub ended: Ended,
    pub length: usize,
}

// `picture` has one like it: what is done with the file and what is said differ, and one function for both would be no plainer.
fn main(rt: HostRuntime) {
    let mut input = checks::input_room();
    match checks::read_input(&rt, &mut input) {
        Ok(n) => replay(checks::first(&input, n)),
        // No capture is as long as the room, and its first byte, which is the version, stands there.
        Err(InputError::TooLong) => replay(&input),
        Err(InputError::Unreadable) => {
            checks::eprint(format_args!(
                "the input can't be read to its end, and is not replayed\n"
            ));
        }
    }
}

fn replay(file: &[u8]) {
    let mut words = capture::words_room();
    let mut z = capture::vectors_room();
    let mut p = capture::predicates_room();
    let mut za = capture::tiles_room();
    let mut room = capture::file_room();
    match replay_file(file, &mut words, &mut z, &mut p, &mut za, &mut room) {
        Err(r) => write_refused(r),
        Ok(ran) => {
            let made = checks::first(&room, ran.length);
            write_bench(ran.bench);
            // A capture's words fit, so this cuts none; it gives the slice its bound.
            write_end(&words[..ran.words.min(words.len())], ran.ended);
            write_changes(ran.bench.vb, file, made);
            if !io::write_all(STDOUT_FILENO, made) {
                checks::eprint(format_args!("standard output did not take the whole capture\n"));
            }
        }
    }
}

// Reads a file, runs it, and puts it with ZA as the run left it at the start of room. The buffers come one by one, here and below:
// `capture` and `machine` take them so, and would have a struct of them taken apart again at once.
fn replay_file(
    file: &[u8],
    words: &mut [u32],
    z: &mut [u8],
    p: &mut [u8],
    za: &mut [u8],
    room: &mut [u8],
) -> Result<Ran, Refusal>
    requires { Roomy (buffers words.old z.old p.old za.old) × (longest ≤ length room.old) }
    ensures { Replays file.now room.old result room.new }
{
    let contents = capture::read(file, words, z, p, za)?;
    let n = contents.words;
    let vb = contents.bench.vb;
    run_and_write(
        contents.bench,
        &words[..n],
        &z[..32 * vb],
        &p[..2 * vb],
        &mut za[..vb * vb],
        room,
    )
}

// Runs words on a bench, and puts the capture with ZA as the run left it at the start of room.
fn run_and_write(
    bench: Bench,
    words: &[u32],
    z: &[u8],
    p: &[u8],
    za: &mut [u8],
    room: &mut [u8],
) -> Result<Ran, Refusal>
    ensures answer { result ≡ told bench (length words.now) (run_of (on bench z.now p.now za.old) words.now) (write_of (capture_of bench words.now z.now p.now (run_left (on bench z.now p.now za.old) words.now).za) (length room.old)) }
    ensures room_after { room.new ≡ room_written (capture_of bench words.now z.now p.now (run_left (on bench z.now p.now za.old) words.now).za) room.old }
{
    let ended = machine::run(bench, z, p, za, words);
    let length = capture::write(bench, words, z, p, za, room)?;
    Ok(Ran {
        bench,
        words: words.len(),
        ended,
        length,
    })
}

// The bench: flags with their features, modes, vector length. A space stands before each feature, where `refusals` has an "and".
fn write_bench(bench: Bench) {
    checks::eprint(format_args!("flags {}", bench.flags));
    for (flag, name) in [(1, " SME"), (2, " I16I64"), (4, " MOP4"), (8, " SME2")] {
        if bench.flags & flag != 0 {
            checks::eprint(format_args!("{name}"));
        }
    }
    checks::eprint(format_args!(
        "\nstreaming mode {}, ZA {}\nvector length {} bytes\n",
        mode(bench.sm),
        mode(bench.za),
        bench.vb
    ));
}

fn mode(on: bool) -> &'static str {
    if on { "on" } else { "off" }
}

// How many words there are and how many were executed; where the run stopped, the word, its text and the refusal.
fn write_end(words: &[u32], ended: Ended) {
    checks::eprint(format_args!("words {}, executed {}\n", words.len(), ended.count));
    let outcome = ended.outcome;
    let Err(r) = outcome else {
        return;
    };
    let place = ended.count;
    if let Some(&word) = words.get(place) {
        checks::eprint(format_args!("stopped at word {}, ", place + 1));
        io::print_hex(STDERR_FILENO, u64::from(word), 8);
        write_text(word);
        checks::eprint(format_args!("\n"));
    }
    write_refused(r);
}

fn write_refused(r: Refusal) {
    checks::eprint(format_args!("refused {}\n", refusals::Told(r)));
}

// The text of a word that is listed, whatever features are on.
fn write_text(word: u32) {
    let mut room = [0u8; 47];
    if let Ok(n) = text::print(isa::ALL_FLAGS, word, &mut room) {
        checks::eprint(format_args!(", "));
        io::write_all(STDERR_FILENO, checks::first(&room, n));
    }
}

// How many bytes of ZA changed, and in the rows of which 64-bit tiles. ZA is the last part of both files.
fn write_changes(vb: usize, before: &[u8], after: &[u8])
    requires { (0 < vb) × (vb ≤ 256) }
{
    let old = last(before, vb * vb);
    let new = last(after, vb * vb);
    checks::eprint(format_args!("bytes of ZA changed: {}", checks::differing(old, new)));
    for tile in 0..8 {
        let n = changed_in(tile, vb, old, new);
        if 0 < n {
            checks::eprint(format_args!(", za{tile}.d {n}"));
        }
    }
    checks::eprint(format_args!("\n"));
}

// How many bytes differ in the rows of a 64-bit tile.
fn changed_in(tile: usize, vb: usize, old: &[u8], new: &[u8]) -> u64
    requires { 0 < vb }
    ensures { result ≡ changed_in tile vb (length old.now) old.now new.now }
{
    let mut n: u64 = 0;
    for (i, &byte) in old.iter().enumerate() {
        let same = checks::has(new, i, byte);
        n = n.wrapping_add(u64::from((i / vb % 8 == tile) & !same));
    }
    n
}

// The last n bytes, or all if there are fewer.
fn last(bytes: &[u8], n: usize) -> &[u8]
    ensures { result.now ≡ drop (length bytes.now - n) bytes.now }
{
    &bytes[bytes.len().saturating_sub(n)..]
}
