// A line is taken for what it can only spell, and read if that spells the same line.
ghost use Rattle.std.specs.Prelude.{◌≡◌, ◌≤◌, length, take};
ghost use Rattle.isa.specs.Refusals.{number_in, missing_beside, value_in};
ghost use Rattle.reader.specs.Answers.{same_text, has_text, read_of, read_number, read_missing, read_word};

use crate::guess;
use isa::Refusal;

// The word that has this text, or why there is none: illegal flags, no listed word with it, a missing feature.
pub fn read(flags: u32, line: &[u8]) -> Result<u32, Refusal>
    ensures answer { result ≡ read_of flags line.now }
    ensures number { number_in result ≡ read_number flags line.now }
    ensures missing { missing_beside result ≡ read_missing flags line.now }
    ensures word { value_in result ≡ read_word flags line.now }
{
    if !isa::flags_legal(flags) {
        return Err(Refusal::Flags);
    }
    let Ok(w) = isa::encode(guess::guess(line)) else {
        return Err(Refusal::NotText);
    };
    let spelt = has_text(w, line);
    if !spelt {
        return Err(Refusal::NotText);
    }
    isa::check(flags, w)?;
    Ok(w)
}

// Whether a word is listed and has this text. No text is longer than the room.
fn has_text(w: u32, line: &[u8]) -> bool
    ensures { result ≡ has_text w line.now }
{
    let mut room = [0u8; 47];
    match text::print(isa::ALL_FLAGS, w, &mut room) {
        Ok(n) => same(&room[..n], line),
        Err(_) => false,
    }
}

// Whether two texts are the same, by the definition's words.
fn same(text: &[u8], line: &[u8]) -> bool
    ensures { result ≡ same_text text.now line.now }
{
    text == line
}
