// Legal vector lengths; little-endian numbers and single bits in lent bytes.
#![tactic(auto)]

ghost use Rattle.std.specs.Prelude.{◌≡◌, ◌+◌, ◌*◌, ◌/◌, ◌%◌, ◌≤◌, ◌<◌, length};
ghost use Rattle.std.proofs.lemmas.List.Edits.{sets};
ghost use Rattle.storage.specs.Bytes.{at, word, bytes_of, bit_at};
ghost use Rattle.storage.specs.Sizes.{legal};

// Whether a streaming vector may have so many bytes.
pub fn is_legal(vb: usize) -> bool
    ensures { result ≡ legal vb }
{
    matches!(vb, 16 | 32 | 64 | 128 | 256)
}

// Each load reads the number whose bytes, lowest first, stand from i on; each store puts its bytes there. One call each of its
// type's own method: no trait of the library has from_le_bytes, so a generic function would be no shorter.

pub fn load_u16(s: &[u8], i: usize) -> u16
    requires { i + 2 ≤ length s.now }
    ensures { result ≡ word 2 (at s.now) i }
{
    u16::from_le_bytes([s[i], s[i + 1]])
}

pub fn load_u32(s: &[u8], i: usize) -> u32
    requires { i + 4 ≤ length s.now }
    ensures { result ≡ word 4 (at s.now) i }
{
    u32::from_le_bytes([s[i], s[i + 1], s[i + 2], s[i + 3]])
}

pub fn load_u64(s: &[u8], i: usize) -> u64
    requires { i + 8 ≤ length s.now }
    ensures { result ≡ word 8 (at s.now) i }
{
    u64::from_le_bytes([
        s[i],
        s[i + 1],
        s[i + 2],
        s[i + 3],
        s[i + 4],
        s[i + 5],
        s[i + 6],
        s[i + 7],
    ])
}

pub fn store_u32(s: &mut [u8], i: usize, v: u32)
    requires { i + 4 ≤ length s.old }
    ensures { s.new ≡ sets s.old i (bytes_of 4 v) }
{
    s[i..i + 4].copy_from_slice(&v.to_le_bytes());
}

pub fn store_u64(s: &mut [u8], i: usize, v: u64)
    requires { i + 8 ≤ length s.old }
    ensures { s.new ≡ sets s.old i (bytes_of 8 v) }
{
    s[i..i + 8].copy_from_slice(&v.to_le_bytes());
}

// Bit i, the lowest of each byte first.
#[tactic(auto, unfolding(crate::specs::Bytes::bit_at))]
pub fn bit(s: &[u8], i: usize) -> bool
    requires { i / 8 < length s.now }
    ensures { result ≡ bit_at s.now i }
{
    (s[i / 8] >> (i % 8)) % 2 == 1
}
