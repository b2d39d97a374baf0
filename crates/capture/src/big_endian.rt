// Big-endian numbers in lent bytes, and runs of bytes and words between buffers. The numbers are `storage`'s but for the order of
// their bytes, each by one call of its type's own method: no trait of the library has from_be_bytes.
ghost use Rattle.std.specs.Prelude.{◌≡◌, ◌++◌, ◌+◌, ◌*◌, ◌≤◌, length, drop};
ghost use Rattle.std.proofs.lemmas.List.Edits.{sets};
ghost use Rattle.capture.specs.Format.{big4, word_bytes, number2};
ghost use Rattle.capture.specs.Steps.{number4, words_at, bytes_at};

pub(crate) fn load_u16(s: &[u8], i: usize) -> u16
    requires { i + 2 ≤ length s.now }
    ensures { result ≡ number2 s.now i }
{
    u16::from_be_bytes([s[i], s[i + 1]])
}

pub(crate) fn load_u32(s: &[u8], i: usize) -> u32
    requires { i + 4 ≤ length s.now }
    ensures { result ≡ number4 s.now i }
{
    u32::from_be_bytes([s[i], s[i + 1], s[i + 2], s[i + 3]])
}

#[tactic(auto, using(storage::proofs::Bytes::part_put))]
pub(crate) fn store_u32(s: &mut [u8], i: usize, v: u32)
    requires { i + 4 ≤ length s.old }
    ensures { s.new ≡ sets s.old i (big4 v) }
{
    s[i..i + 4].copy_from_slice(&v.to_be_bytes());
}

// All bytes of t to room, from i on. Byte by byte, here and below: copy_from_slice would have the archive for C ask for memmove.
#[tactic(auto, using(storage::proofs::Bytes::part_put))]
pub(crate) fn put_bytes(room: &mut [u8], i: usize, t: &[u8])
    requires { i + length t.now ≤ length room.old }
    ensures { room.new ≡ sets room.old i t.now }
{
    for (k, byte) in room[i..i + t.len()].iter_mut().enumerate() {
        *byte = t[k];
    }
}

// All words to room, from i on.
#[tactic(auto, using(crate::proofs::Copies::stored_word), unfolding(crate::specs::Format::word_bytes))]
pub(crate) fn put_words(room: &mut [u8], i: usize, words: &[u32])
    requires { i + 4 * length words.now ≤ length room.old }
    ensures { room.new ≡ sets room.old i (word_bytes words.now) }
{
    for (k, &word) in words.iter().enumerate() {
        store_u32(room, i + 4 * k, word);
    }
}

// The n bytes of s from i on, to the start of room.
pub(crate) fn take_bytes(s: &[u8], i: usize, n: usize, room: &mut [u8])
    requires { (i + n ≤ length s.now) × (n ≤ length room.old) }
    ensures { room.new ≡ bytes_at s.now i n ++ drop n room.old }
{
    for (k, byte) in room[..n].iter_mut().enumerate() {
        *byte = s[i + k];
    }
}

// The n words of s from i on, to the start of room.
#[tactic(auto, using(crate::proofs::Copies::word_taken), unfolding(crate::specs::Steps::words_at))]
pub(crate) fn take_words(s: &[u8], i: usize, n: usize, room: &mut [u32])
    requires { (i + 4 * n ≤ length s.now) × (n ≤ length room.old) }
    ensures { room.new ≡ words_at s.now i n ++ drop n room.old }
{
    for (k, word) in room[..n].iter_mut().enumerate() {
        *word = load_u32(s, i + 4 * k);
    }
}
