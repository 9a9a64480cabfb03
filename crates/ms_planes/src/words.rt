//! Numbers in a row of bytes.
ghost use Rattle.std.specs.Prelude.{◌≡◌, ◌≤◌, ◌+◌, length};
ghost use Rattle.ms_bits.specs.Maps.{with_range, byte_of, number_at};
ghost use Rattle.ms_planes.specs.Areas.{held};

/// The number that two bytes from place `at` on are, the least first.
fn two_in(bytes: &[u8], at: usize) -> u16
    requires { at + 2 ≤ length bytes.now }
    ensures { result ≡ number_at (held bytes.now) at 2 }
{
    u16::from_le_bytes([bytes[at], bytes[at + 1]])
}

/// The number that four bytes from place `at` on are, the least first.
fn four_in(bytes: &[u8], at: usize) -> u32
    requires { at + 4 ≤ length bytes.now }
    ensures { result ≡ number_at (held bytes.now) at 4 }
{
    u32::from_le_bytes([bytes[at], bytes[at + 1], bytes[at + 2], bytes[at + 3]])
}

/// The number that eight bytes from place `at` on are, the least first.
fn eight_in(bytes: &[u8], at: usize) -> u64
    requires { at + 8 ≤ length bytes.now }
    ensures { result ≡ number_at (held bytes.now) at 8 }
{
    u64::from_le_bytes([
        bytes[at],
        bytes[at + 1],
        bytes[at + 2],
        bytes[at + 3],
        bytes[at + 4],
        bytes[at + 5],
        bytes[at + 6],
        bytes[at + 7],
    ])
}

/// The number that the `n` bytes from place `at` on are, the least first, byte by byte.
fn number_by_bytes(bytes: &[u8], at: usize, n: u8) -> u64
    requires within { at + n ≤ length bytes.now }
    requires short { n ≤ 8 }
    ensures { result ≡ number_at (held bytes.now) at n }
{
    let mut value = 0u64;
    let mut left = usize::from(n);
    while left > 0 {
        left -= 1;
        value = value * 256 + u64::from(bytes[at + left]);
    }
    value
}

/// The number that the `n` bytes from place `at` on are, the least first.
pub fn number_in(bytes: &[u8], at: usize, n: u8) -> u64
    requires within { at + n ≤ length bytes.now }
    requires short { n ≤ 8 }
    ensures { result ≡ number_at (held bytes.now) at n }
{
    match n {
        1 => u64::from(bytes[at]),
        2 => u64::from(two_in(bytes, at)),
        4 => u64::from(four_in(bytes, at)),
        8 => eight_in(bytes, at),
        _ => number_by_bytes(bytes, at, n),
    }
}

/// Puts the `n` low bytes of `v` from place `at` on, the least first, byte by byte.
fn put_by_bytes(bytes: &mut Vec<u8>, at: usize, n: u8, v: u64)
    requires { at + n ≤ length bytes.old.items }
    ensures shown { held bytes.new.items ≡ with_range (held bytes.old.items) at n (byte_of v) }
    ensures len { length bytes.new.items ≡ length bytes.old.items }
{
    let mut rest = v;
    for i in 0..usize::from(n) {
        bytes[at + i] = (rest % 256) as u8;
        rest /= 256;
    }
}

/// Puts the `n` low bytes of `v` from place `at` on, the least first.
pub fn put_number(bytes: &mut Vec<u8>, at: usize, n: u8, v: u64)
    requires { at + n ≤ length bytes.old.items }
    ensures shown { held bytes.new.items ≡ with_range (held bytes.old.items) at n (byte_of v) }
    ensures len { length bytes.new.items ≡ length bytes.old.items }
{
    match n {
        1 => paste(bytes, at, &[(v % 256) as u8]),
        2 => paste(bytes, at, &((v % 0x1_0000) as u16).to_le_bytes()),
        4 => paste(bytes, at, &((v % 0x1_0000_0000) as u32).to_le_bytes()),
        8 => paste(bytes, at, &v.to_le_bytes()),
        _ => put_by_bytes(bytes, at, n, v),
    }
}

/// Writes the bytes of `source` from place `at` on.
pub(crate) fn paste(bytes: &mut Vec<u8>, at: usize, source: &[u8])
    requires { at + length source.now ≤ length bytes.old.items }
    ensures shown { held bytes.new.items ≡ with_range (held bytes.old.items) at (length source.now) (held source.now) }
    ensures len { length bytes.new.items ≡ length bytes.old.items }
{
    bytes[at..at + source.len()].copy_from_slice(source);
}
