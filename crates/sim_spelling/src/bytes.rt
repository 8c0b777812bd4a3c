// Bytes: `x` and hexadecimal digits, or a length, `*` and the digits of the byte that fills it.
use crate::numbers::{decimal, digit};

// The byte at i, 0 past the end.
pub fn byte(s: &[u8], i: usize) -> u8 {
    s.get(i).copied().unwrap_or(0)
}

// The byte of two digits.
fn pair(high: u8, low: u8) -> Option<u8> {
    Some(digit(high)? << 4 | digit(low)?)
}

// The bytes of hexadecimal digits, as many as `out` holds. The value is how many there are.
pub fn unhex(s: &[u8], out: &mut [u8]) -> Option<usize> {
    let (pairs, rest) = s.as_chunks::<2>();
    if !rest.is_empty() {
        return None;
    }
    let mut places = out.iter_mut();
    for [high, low] in pairs {
        let b = pair(*high, *low)?;
        if let Some(place) = places.next() {
            *place = b;
        }
    }
    Some(pairs.len())
}

// A length, `*`, and a byte. A longer text than `out` holds is cut there.
fn repeated(s: &[u8], out: &mut [u8]) -> Option<usize> {
    let star = s.iter().position(|b| *b == b'*')?;
    let (length, rest) = s.split_at(star);
    let n = decimal(length)?;
    let [_, high, low] = rest else {
        return None;
    };
    let b = pair(*high, *low)?;
    let count = (n as usize).min(out.len());
    out[0..count].fill(b);
    Some(count)
}

// The bytes that a word stands for, at the front of `out`; the value is how many there are.
pub fn bytes_of(s: &[u8], out: &mut [u8]) -> Option<usize> {
    match s.strip_prefix(b"x") {
        Some(digits) => unhex(digits, out),
        None => repeated(s, out),
    }
}

// Digits of a key.
const KEY_DIGITS: usize = 64;

// The 32 bytes of a key.
pub fn key(s: &[u8], out: &mut [u8]) -> Option<usize> {
    if s.len() == KEY_DIGITS {
        return unhex(s, out);
    }
    None
}

// The words of a key's 32 bytes, little-endian.
pub fn key_of(s: &[u8]) -> [u32; 8] {
    std::array::from_fn(|i| u32::from_le_bytes(std::array::from_fn(|k| byte(s, 4 * i + k))))
}
