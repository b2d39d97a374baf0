// A stream of bytes that a seed gives.
ghost use Rattle.std.specs.Prelude.{◌≡◌, length};
ghost use Rattle.checks.specs.Stream.{step, edge, byte_from, streamed, stood};

use crate::Fill;

// Fills the bytes from the stream that stands at x, and answers where it stands afterwards.
pub fn generate(x: u32, fill: Fill, bytes: &mut [u8]) -> u32
    ensures answer { result ≡ stood x (length bytes.old) }
    ensures bytes_after { bytes.new ≡ streamed fill x (length bytes.old) }
{
    let mut x = x;
    for byte in bytes.iter_mut() {
        x = next(x);
        *byte = byte_from(x, fill);
    }
    x
}

// Where the stream stands after x.
pub fn next(x: u32) -> u32
    ensures { result ≡ step x }
{
    x.wrapping_mul(1103515245).wrapping_add(12345)
}

// The byte of a place of the stream.
fn byte_from(x: u32, fill: Fill) -> u8
    ensures { result ≡ byte_from fill x }
{
    let byte = (x / 65536 % 256) as u8;
    match fill {
        Fill::Any => byte,
        Fill::Edges => edge_of(byte % 5),
        Fill::Ends => { if byte < 128 { 0 } else { 255 } }
    }
}

fn edge_of(k: u8) -> u8
    ensures { result ≡ edge k }
{
    match k {
        0 => 0,
        1 => 1,
        2 => 127,
        3 => 128,
        _ => 255,
    }
}
