// Reading a capture file.
ghost use Rattle.std.specs.Prelude.{◌≡◌, ◌++◌, ◌+◌, ◌≤◌, length, drop};
ghost use Rattle.storage.specs.Sizes.{z_size, p_size, za_size};
ghost use Rattle.machine.specs.Lists.{most_words};
ghost use Rattle.capture.specs.Outcomes.{buffers, Reads};
ghost use Rattle.capture.specs.Claims.{Answers};
ghost use Rattle.capture.specs.Steps.{long_enough, words_at, bytes_at, z_at, p_at, za_at};

use crate::big_endian::{take_bytes, take_words};
use crate::finder::find;
use crate::{Contents, VERSION};
use isa::Refusal;

// Puts the contents of a file at the starts of the buffers, and answers what else it holds. What is past them stays; refused, all of it does.
pub fn read(
    file: &[u8],
    words: &mut [u32],
    z: &mut [u8],
    p: &mut [u8],
    za: &mut [u8],
) -> Result<Contents, Refusal>
    ensures reads { Reads file.now (buffers words.old z.old p.old za.old) result (buffers words.new z.new p.new za.new) }
    ensures answers { Answers file.now (buffers words.old z.old p.old za.old) result }
{
    if file.is_empty() {
        return Err(Refusal::Format);
    }
    if file[0] != VERSION {
        return Err(Refusal::Version);
    }
    let Some(contents) = find(file) else {
        return Err(Refusal::Format);
    };
    let n = contents.words;
    let vb = contents.bench.vb;
    if !long_enough(n, vb, words.len(), z.len(), p.len(), za.len()) {
        return Err(Refusal::Room);
    }
    take_parts(file, n, vb, words, z, p, za);
    Ok(contents)
}

// The parts of a capture of n words to the starts of buffers that are long enough.
// The four buffers come one by one, as `read`, which C reaches, is lent them; a struct for this one call would be no plainer.
fn take_parts(
    file: &[u8],
    n: usize,
    vb: usize,
    words: &mut [u32],
    z: &mut [u8],
    p: &mut [u8],
    za: &mut [u8],
)
    requires file_holds { (n ≤ most_words) × (vb ≤ 256) × (za_size vb ≤ 65536) × (za_at n vb + za_size vb ≤ length file.now) }
    requires rooms_hold { (n ≤ length words.old) × (z_size vb ≤ length z.old) × (p_size vb ≤ length p.old) × (za_size vb ≤ length za.old) }
    ensures words_after { words.new ≡ words_at file.now 13 n ++ drop n words.old }
    ensures z_after { z.new ≡ bytes_at file.now (z_at n) (z_size vb) ++ drop (z_size vb) z.old }
    ensures p_after { p.new ≡ bytes_at file.now (p_at n vb) (p_size vb) ++ drop (p_size vb) p.old }
    ensures za_after { za.new ≡ bytes_at file.now (za_at n vb) (za_size vb) ++ drop (za_size vb) za.old }
{
    take_words(file, 13, n, words);
    take_bytes(file, 17 + 4 * n, 32 * vb, z);
    take_bytes(file, 21 + 4 * n + 32 * vb, 2 * vb, p);
    take_bytes(file, 25 + 4 * n + 34 * vb, vb * vb, za);
}

// Whether n words and Z, P and ZA of VB bytes fit their buffers, whose lengths come one by one as the buffers do.
fn long_enough(n: usize, vb: usize, words: usize, z: usize, p: usize, za: usize) -> bool
    requires { vb ≤ 256 }
    ensures { result ≡ long_enough n vb words z p za }
{
    (n <= words) & (32 * vb <= z) & (2 * vb <= p) & (vb * vb <= za)
}
