// Assembles a kernel: a line of text on standard input for each instruction, and its word on standard output, as four
// bytes, lowest first. Every feature is on. Blank lines, and lines that begin with //, are left out. A line that is
// refused is reported on standard error, and so is, at the end, how many words were written and how many lines refused.
// Input may have 4,194,304 bytes.
#![tactic(auto)]

ghost use Rattle.std.specs.Prelude.{◌≡◌};
ghost use Rattle.checks.specs.Tally.{sum};
ghost use Rattle.assemble.specs.Kernel.{lines, is_space, is_blank, is_comment, assembled, words_after, refused_after, count_over};

use checks::{InputError, STDOUT_FILENO};
use isa::Refusal;

// How many lines came to words, how many of these were written, and how many lines were refused.
#[derive(Clone, Copy, Default)]
pub struct Counts {
    pub words: u64,
    pub written: u64,
    pub refused: u64,
}

fn main(rt: HostRuntime) {
    let mut text = checks::input_room();
    match checks::read_input(&rt, &mut text) {
        Ok(n) => report(assemble(checks::first(&text, n))),
        Err(InputError::TooLong) => {
            checks::eprint(format_args!(
                "the input has more bytes than {}, and is not assembled\n",
                checks::INPUT_ROOM
            ));
            report(Counts::default());
        }
        Err(InputError::Unreadable) => {
            checks::eprint(format_args!(
                "the input can't be read to its end, and is not assembled\n"
            ));
            report(Counts::default());
        }
    }
}

// Each line in turn. The last may have no line feed; where it has one, nothing is left behind it, which is blank.
fn assemble(text: &[u8]) -> Counts
    ensures words { result.words ≡ count_over words_after 0 (lines text.now) }
    ensures refused { result.refused ≡ count_over refused_after 0 (lines text.now) }
{
    let mut counts = Counts::default();
    for (i, line) in text.split(|&byte| byte == b'\n').enumerate() {
        counts = take_line(counts, i, line);
    }
    counts
}

// Counts one line more, which is lent without its line feed, and writes its word or reports its refusal.
fn take_line(counts: Counts, i: usize, line: &[u8]) -> Counts
    ensures words { result.words ≡ words_after counts.words (assembled line.now) }
    ensures refused { result.refused ≡ refused_after counts.refused (assembled line.now) }
{
    match assemble_line(line) {
        Ok(None) => counts,
        Ok(Some(w)) => take_word(counts, w),
        Err(refusal) => take_refusal(counts, i, refusal),
    }
}

// The word of a line, or none where the line is left out.
fn assemble_line(line: &[u8]) -> Result<Option<u32>, Refusal>
    ensures { result ≡ assembled line.now }
{
    if is_blank(line) {
        return Ok(None);
    }
    if is_comment(line) {
        return Ok(None);
    }
    let word = reader::read(isa::ALL_FLAGS, line)?;
    Ok(Some(word))
}

fn is_blank(line: &[u8]) -> bool
    ensures { result ≡ is_blank line.now }
{
    line.iter().all(|&byte| is_space(byte))
}

fn is_space(byte: u8) -> bool
    ensures { result ≡ is_space byte }
{
    matches!(byte, b' ' | b'\t')
}

fn is_comment(line: &[u8]) -> bool
    ensures { result ≡ is_comment line.now }
{
    line.starts_with(b"//")
}

fn take_word(counts: Counts, w: u32) -> Counts
    ensures words { result.words ≡ sum counts.words 1 }
    ensures refused { result.refused ≡ counts.refused }
{
    let written = write_word(counts, w);
    Counts {
        words: counts.words.wrapping_add(1),
        written: counts.written.wrapping_add(u64::from(written)),
        ..counts
    }
}

// Writes a word, and answers whether it could. Behind one that could not be written none is: it would stand in the
// wrong place.
fn write_word(counts: Counts, w: u32) -> bool {
    counts.written == counts.words && io::write_all(STDOUT_FILENO, &w.to_le_bytes())
}

// The first line is line 1.
fn take_refusal(counts: Counts, i: usize, refusal: Refusal) -> Counts
    ensures words { result.words ≡ counts.words }
    ensures refused { result.refused ≡ sum counts.refused 1 }
{
    let line_number = i.wrapping_add(1);
    checks::eprint(format_args!("line {line_number}: refused {}\n", refusals::Told(refusal)));
    Counts {
        refused: counts.refused.wrapping_add(1),
        ..counts
    }
}

// The counts come last. Words that are not all of the kernel must not pass for it.
fn report(counts: Counts) {
    if counts.refused != 0 {
        checks::eprint(format_args!("the words are not the whole kernel: lines were refused\n"));
    }
    if counts.written != counts.words {
        checks::eprint(format_args!(
            "the words are not the whole kernel: standard output did not take them all\n"
        ));
    }
    checks::eprint(format_args!(
        "words written: {}, lines refused: {}\n",
        counts.written, counts.refused
    ));
}
