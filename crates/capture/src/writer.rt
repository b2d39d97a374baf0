// Writing a capture file.
ghost use Rattle.std.specs.Prelude.{◌≡◌, ◌∷◌, ◌+◌, ◌*◌, ◌≤◌, length};
ghost use Rattle.std.proofs.lemmas.List.Edits.{sets};
ghost use Rattle.isa.specs.Refusals.{number_in, value_in};
ghost use Rattle.isa.specs.Table.{all_flags};
ghost use Rattle.machine.specs.Lists.{most_words};
ghost use Rattle.capture.specs.Format.{version, head_of, modes, word_bytes, part, bytes_of_capture, capture_of};
ghost use Rattle.capture.specs.Outcomes.{write_of, room_written, write_number, write_length};

use crate::VERSION;
use crate::big_endian::{put_bytes, put_words, store_u32};
use isa::Refusal;
use machine::Bench;

// Puts the file at the start of room, and answers its length. The bytes after it stay; refused, all of them do.
pub fn write(
    bench: Bench,
    words: &[u32],
    z: &[u8],
    p: &[u8],
    za: &[u8],
    room: &mut [u8],
) -> Result<usize, Refusal>
    ensures answer { result ≡ write_of (capture_of bench words.now z.now p.now za.now) (length room.old) }
    ensures room_after { room.new ≡ room_written (capture_of bench words.now z.now p.now za.now) room.old }
    ensures number { number_in result ≡ write_number (capture_of bench words.now z.now p.now za.now) (length room.old) }
    ensures len { value_in result ≡ write_length (capture_of bench words.now z.now p.now za.now) (length room.old) }
{
    machine::check_run(bench, z.len(), p.len(), za.len(), words.len())?;
    let n = 25 + 4 * words.len() + z.len() + p.len() + za.len();
    if room.len() < n {
        return Err(Refusal::Room);
    }
    fill(bench, words, z, p, za, room);
    Ok(n)
}

// The file of legal sizes to the start of a room that is long enough.
// What a file holds comes one by one, as `write`, which C reaches, is given it; a struct for this one call would be no plainer.
fn fill(bench: Bench, words: &[u32], z: &[u8], p: &[u8], za: &[u8], room: &mut [u8])
    requires bounds { (bench.flags ≤ all_flags) × (bench.vb ≤ 256) × (length words.now ≤ most_words) × (length z.now ≤ 8192) × (length p.now ≤ 512) × (length za.now ≤ 65536) }
    requires fits { 25 + 4 * length words.now + length z.now + length p.now + length za.now ≤ length room.old }
    ensures { room.new ≡ sets room.old 0 (bytes_of_capture (capture_of bench words.now z.now p.now za.now)) }
{
    put_head(bench, room);
    put_word_part(room, 9, words);
    let second = 13 + 4 * words.len();
    put_part(room, second, z);
    let third = second + 4 + z.len();
    put_part(room, third, p);
    let fourth = third + 4 + p.len();
    put_part(room, fourth, za);
}

// The version and the first part.
fn put_head(bench: Bench, room: &mut [u8])
    requires { (bench.flags ≤ all_flags) × (bench.vb ≤ 256) × (9 ≤ length room.old) }
    ensures { room.new ≡ sets room.old 0 (version ∷ part (head_of bench)) }
{
    let modes = modes_of(bench.sm, bench.za);
    let vb = (bench.vb as u16).to_be_bytes();
    let head = [VERSION, 0, 0, 0, 4, bench.flags as u8, modes, vb[0], vb[1]];
    put_bytes(room, 0, &head);
}

// The byte of modes: 1 streaming, 2 ZA, summed.
pub fn modes_of(streaming: bool, za_on: bool) -> u8
    ensures { result ≡ modes streaming za_on }
{
    streaming as u8 + 2 * za_on as u8
}

// A part of words, from i on. One function with put_part would be no plainer: bytes are copied, words are turned into bytes.
fn put_word_part(room: &mut [u8], i: usize, words: &[u32])
    requires { (i + 4 + 4 * length words.now ≤ length room.old) × (length words.now ≤ most_words) }
    ensures { room.new ≡ sets room.old i (part (word_bytes words.now)) }
{
    store_u32(room, i, (4 * words.len()) as u32);
    put_words(room, i + 4, words);
}

// A part of bytes, from i on.
fn put_part(room: &mut [u8], i: usize, t: &[u8])
    requires { (i + 4 + length t.now ≤ length room.old) × (length t.now ≤ 65536) }
    ensures { room.new ≡ sets room.old i (part t.now) }
{
    store_u32(room, i, t.len() as u32);
    put_bytes(room, i + 4, t);
}
