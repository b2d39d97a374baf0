// Products, and the tile elements that they are added to. Sizes and the number of products are run-time numbers, since the plain
// walk has them so, and a const parameter would put the same switch round each call there: what is multiplied, and the type that
// wraps, go by them. The fast walk calls these with constants.
ghost use Rattle.std.specs.Prelude.{◌≡◌, ◌+◌, ◌/◌, ◌^◌, ◌<◌, ◌≤◌, length, pos, ◌*ℤ◌, neg_ℤ};
ghost use Rattle.std.proofs.lemmas.List.Edits.{sets};
ghost use Rattle.std.specs.Int.Signed.{mag};
ghost use Rattle.storage.specs.Bytes.{at, word, bytes_of};
ghost use Rattle.storage.specs.Modulo.{plus};
ghost use Rattle.outer.specs.Products.{Shaped};
ghost use Rattle.outer.specs.Walks.{FourOrEight};

// A tile element of e bytes: 4, or 8.

pub(crate) fn load(e: usize, za: &[u8], i: usize) -> u64
    requires four_or_eight { FourOrEight e }
    requires e_in_bounds { i + e ≤ length za.now }
    ensures { (result ≡ word e (at za.now) i) × (result < 256 ^ e) }
{
    if e == 8 {
        return storage::load_u64(za, i);
    }
    storage::load_u32(za, i) as u64
}

pub(crate) fn store(e: usize, za: &mut [u8], i: usize, v: u64)
    requires four_or_eight { FourOrEight e }
    requires e_in_bounds { (i + e ≤ length za.old) × (v < 256 ^ e) }
    ensures { za.new ≡ sets za.old i (bytes_of e v) }
{
    if e == 8 {
        storage::store_u64(za, i, v);
        return;
    }
    storage::store_u32(za, i, v as u32);
}

// A product: bytes are multiplied as i32, halfwords as i64.
pub(crate) fn multiply(e: usize, k: usize, x: i32, y: i32) -> i64
    requires shaped { Shaped e k }
    requires x_bound { (mag x ≤ 256 ^ (e / k)) × (mag y ≤ 256 ^ (e / k)) }
    ensures { (result ≡ x *ℤ y) × (mag result < 0x200000000) }
{
    if e == k {
        return (x * y) as i64;
    }
    (x as i64) * (y as i64)
}

// A product added to a tile element modulo its size, by one wrapping addition or subtraction.
pub(crate) fn add_signed(e: usize, sum: u64, q: i64) -> u64
    requires four_or_eight { FourOrEight e }
    requires sum_bound { (sum < 256 ^ e) × (mag q < 0x400000000) }
    ensures { result ≡ plus e sum q }
{
    if q < 0 {
        return take(e, sum, (0 - q) as u64);
    }
    add(e, sum, q as u64)
}

// The element's size comes as a number to each of these: `add_to`, which `update`'s promise speaks of, takes any. One function for
// add and take would be no plainer: it would be told at each call which of the two it is.
fn add(e: usize, sum: u64, n: u64) -> u64
    requires four_or_eight { FourOrEight e }
    requires sum_bound { sum < 256 ^ e }
    ensures { result ≡ plus e sum (pos n) }
{
    if e == 8 {
        return sum.wrapping_add(n);
    }
    (sum as u32).wrapping_add((n % 0x1_0000_0000) as u32) as u64
}

fn take(e: usize, sum: u64, n: u64) -> u64
    requires four_or_eight { FourOrEight e }
    requires sum_bound { sum < 256 ^ e }
    ensures { result ≡ plus e sum (neg_ℤ (pos n)) }
{
    if e == 8 {
        return sum.wrapping_sub(n);
    }
    (sum as u32).wrapping_sub((n % 0x1_0000_0000) as u32) as u64
}
