// The parts of a file, and the capture that they are.
ghost use Rattle.std.specs.Prelude.{◌≡◌, ◌≤◌, length, get_or};
ghost use Rattle.capture.specs.Steps.{Peels, Splits, FiveParts, bench_at, Finds};

use crate::big_endian::{load_u16, load_u32};
use crate::{Contents, Parts};
use machine::Bench;

// The part at i: its length, and as many bytes.
fn part_at(file: &[u8], i: usize) -> Option<usize>
    requires { i ≤ length file.now }
    ensures { Peels file.now i result }
{
    if file.len() - i < 4 {
        return None;
    }
    let n = load_u32(file, i) as usize;
    if file.len() - i - 4 < n {
        return None;
    }
    Some(n)
}

// The five parts behind the first byte, and nothing after them.
fn five_parts(file: &[u8]) -> Option<Parts>
    requires { 1 ≤ length file.now }
    ensures { Splits file.now result }
{
    let head = part_at(file, 1)?;
    let second = 5 + head;
    let words = part_at(file, second)?;
    let third = second + 4 + words;
    let z = part_at(file, third)?;
    let fourth = third + 4 + z;
    let p = part_at(file, fourth)?;
    let fifth = fourth + 4 + p;
    let za = part_at(file, fifth)?;
    if fifth + 4 + za != file.len() {
        return None;
    }
    Some(Parts {
        head,
        words,
        z,
        p,
        za,
    })
}

// The legal capture that has these parts.
fn capture_of(file: &[u8], parts: Parts) -> Option<Contents>
    requires five_parts { FiveParts file.now parts.head parts.words parts.z parts.p parts.za }
    requires version { get_or file.now 0 0 ≡ 1 }
    ensures { Finds file.now result }
{
    if parts.head != 4 {
        return None;
    }
    if parts.words % 4 != 0 {
        return None;
    }
    if 3 < file[6] {
        return None;
    }
    let bench = bench_at(file);
    let words = parts.words / 4;
    // A match is no longer than .ok() and a `?`, and has both cases that the promise speaks of.
    match machine::check_run(bench, parts.z, parts.p, parts.za, words) {
        Ok(()) => Some(Contents { bench, words }),
        Err(_) => None,
    }
}

// The bench that the first part says.
fn bench_at(file: &[u8]) -> Bench
    requires { 9 ≤ length file.now }
    ensures { result ≡ bench_at file.now }
{
    Bench {
        flags: file[5] as u32,
        sm: file[6] % 2 == 1,
        za: 2 <= file[6],
        vb: load_u16(file, 7) as usize,
    }
}

// The legal capture that a file of this version is.
pub(crate) fn find(file: &[u8]) -> Option<Contents>
    requires begins { 1 ≤ length file.now }
    requires version { get_or file.now 0 0 ≡ 1 }
    ensures { Finds file.now result }
{
    capture_of(file, five_parts(file)?)
}
