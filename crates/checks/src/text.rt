// Numbers and fields of a text.
ghost use Rattle.std.specs.Prelude.{◌≡◌, ◌+◌, ◌-◌, ◌≤◌, length, take, drop};
ghost use Rattle.checks.specs.Text.{hexadecimal, field_length};

// The number that hex digits give, of which the lowest eight count.
pub fn hexadecimal_of(text: &[u8]) -> Option<u32>
    ensures { result ≡ hexadecimal 0 text.now }
{
    let mut n: u32 = 0;
    for &byte in text {
        let digit = char::from(byte).to_digit(16)?;
        n = n % 0x1000_0000 * 16 + digit;
    }
    Some(n)
}

// Where the field that starts at `at` has the byte that ends it, or the end of the text if it has none.
pub fn field_end(text: &[u8], at: usize, last: u8) -> usize
    ensures answer { result ≡ at + field_length last (drop at text.now) }
    ensures bounds { (at ≤ result) × (result ≤ at + (length text.now - at)) }
{
    let rest = &text[at.min(text.len())..];
    at + rest
        .iter()
        .position(|&byte| byte == last)
        .unwrap_or(rest.len())
}

// The first n bytes, or all if there are fewer.
pub fn first(bytes: &[u8], n: usize) -> &[u8]
    ensures { result.now ≡ take n bytes.now }
{
    &bytes[..n.min(bytes.len())]
}
