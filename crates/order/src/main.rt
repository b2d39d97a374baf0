// Names the pairs of outer products in a list whose order matters: words on standard input, as little-endian bytes. Where there is
// none, any order gives the same ZA, executed one at a time, as long as no word moves past a ZERO or a word that is not listed;
// these are named first, as fixed. Every feature is on. A list may have 65,536 words, as for a run.
#![tactic(auto)]

ghost use Rattle.std.specs.Prelude.{◌≡◌, ◌+◌, ◌*◌, ◌≤◌, length};
ghost use Rattle.std.proofs.Math.Option.{some};
ghost use Rattle.isa.specs.Table.{all_flags};
ghost use Rattle.machine.specs.Instructions.{is_outer};
ghost use Rattle.pairs.specs.Order.{some_below, order_matters};
ghost use Rattle.order.specs.Pairs.{word_at, paired_with, any_pair, is_fixed, any_fixed, count_in, verdict_of};

use checks::{InputError, STDOUT_FILENO};
use isa::{Instruction, Refusal};

// What is said of a list.
#[derive(Clone, Copy)]
pub enum Verdict {
    OrderMatters,
    AnyOrder,
    AnyOrderBetween,
}

// Why nothing is said of it.
#[derive(Clone, Copy)]
pub enum Unjudged {
    NotWords,
    TooLong,
    Unreadable,
}

fn main(rt: HostRuntime) {
    let mut room = checks::input_room();
    if let Err(why) = judge_input(&rt, &mut room) {
        tell_why(why);
    }
}

// Judges what is on standard input, and says what comes of it.
fn judge_input(rt: &HostRuntime, room: &mut [u8]) -> Result<(), Unjudged> {
    let n = checks::read_input(rt, room).map_err(|error| match error {
        InputError::TooLong => Unjudged::TooLong,
        InputError::Unreadable => Unjudged::Unreadable,
    })?;
    let bytes = checks::first(room, n);
    let verdict = judge(bytes)?;
    pronounce(verdict, bytes.len() / 4);
    Ok(())
}

// Judges a list of whole words, not longer than a run's; its fixed words and its pairs are named on the way.
fn judge(bytes: &[u8]) -> Result<Verdict, Unjudged>
    ensures { result ≡ verdict_of bytes.now }
{
    if bytes.len() % 4 != 0 {
        return Err(Unjudged::NotWords);
    }
    if 4 * machine::MOST_WORDS < bytes.len() {
        return Err(Unjudged::TooLong);
    }
    let fixed = name_fixed_words(bytes);
    if name_pairs(bytes) {
        return Ok(Verdict::OrderMatters);
    }
    if fixed {
        return Ok(Verdict::AnyOrderBetween);
    }
    Ok(Verdict::AnyOrder)
}

// What the verdict says beside the pairs that were named.
fn pronounce(verdict: Verdict, words: usize) {
    match verdict {
        Verdict::OrderMatters => {}
        Verdict::AnyOrder => {
            checks::print(format_args!("any order gives the same ZA\n"));
        }
        Verdict::AnyOrderBetween => {
            checks::print(format_args!(
                "any order that moves no word past a fixed one gives the same ZA\n"
            ));
        }
    }
    count_words(words);
}

fn tell_why(why: Unjudged) {
    match why {
        Unjudged::NotWords => {
            checks::eprint(format_args!(
                "the input ends in the middle of a word, and is not judged\n"
            ));
        }
        Unjudged::TooLong => {
            checks::eprint(format_args!(
                "the list has more words than {}, and is not judged\n",
                machine::MOST_WORDS
            ));
        }
        Unjudged::Unreadable => {
            checks::eprint(format_args!("the input can't be read to its end, and is not judged\n"));
        }
    }
}

// The last line shows that the list was judged to its end, and that it was not empty.
fn count_words(n: usize) {
    checks::print(format_args!("words judged: {n}"));
    if !checks::print(format_args!("\n")) {
        checks::eprint(format_args!("standard output did not take all of this\n"));
    }
}

// Names each pair whose order matters, and answers whether there is one. What names a pair stands before `|`, so that it is done
// in any case. The loops count places: a pair is of two, and the definitions speak of the word at a place.
fn name_pairs(bytes: &[u8]) -> bool
    ensures { result ≡ any_pair bytes.now (count_in bytes.now) }
{
    let mut found = false;
    for i in 0..bytes.len() / 4 {
        found = name_pairs_with(bytes, i) | found;
    }
    found
}

// Those of word i with an earlier one.
fn name_pairs_with(bytes: &[u8], i: usize) -> bool
    requires { 4 * i + 4 ≤ length bytes.now }
    ensures { result ≡ some_below (paired_with bytes.now i) i }
{
    let later = word_at(bytes, i);
    let mut found = false;
    for j in 0..i {
        found = name_pair(j, word_at(bytes, j), i, later) | found;
    }
    found
}

fn name_pair(j: usize, earlier: u32, i: usize, later: u32) -> bool
    ensures { result ≡ order_matters all_flags earlier later }
{
    let matters = pairs::order_matters(isa::ALL_FLAGS, earlier, later);
    if matters {
        checks::print(format_args!("order matters: "));
        write_word(j, earlier);
        checks::print(format_args!("; "));
        write_word(i, later);
        checks::print(format_args!("\n"));
    }
    matters
}

// Names each word that stays where it is, and answers whether there is one. By places again, as the definitions speak of them.
fn name_fixed_words(bytes: &[u8]) -> bool
    ensures { result ≡ any_fixed bytes.now (count_in bytes.now) }
{
    let mut found = false;
    for i in 0..bytes.len() / 4 {
        found = name_if_fixed(i, word_at(bytes, i)) | found;
    }
    found
}

fn name_if_fixed(i: usize, word: u32) -> bool
    ensures { result ≡ is_fixed word }
{
    match isa::decode(isa::ALL_FLAGS, word) {
        Err(r) => {
            name_refused(i, word, r);
            true
        }
        Ok(Instruction::Zero(_)) => {
            checks::print(format_args!("fixed: "));
            write_word(i, word);
            checks::print(format_args!("\n"));
            true
        }
        Ok(_) => false,
    }
}

fn name_refused(i: usize, word: u32, r: Refusal) {
    checks::print(format_args!("fixed: "));
    checks::print(format_args!("word {}, ", place(i)));
    io::print_hex(STDOUT_FILENO, u64::from(word), 8);
    checks::print(format_args!(", refused {}\n", refusals::Told(r)));
}

fn word_at(bytes: &[u8], i: usize) -> u32
    requires { 4 * i + 4 ≤ length bytes.now }
    ensures { result ≡ word_at bytes.now i }
{
    storage::load_u32(bytes, 4 * i)
}

// A word by its place in the list and its text.
fn write_word(i: usize, word: u32) {
    checks::print(format_args!("word {}, ", place(i)));
    let mut room = [0u8; 47];
    if let Ok(n) = text::print(isa::ALL_FLAGS, word, &mut room) {
        io::write_all(STDOUT_FILENO, checks::first(&room, n));
    }
}

// The first word is word 1.
fn place(i: usize) -> u64 {
    (i as u64).wrapping_add(1)
}
