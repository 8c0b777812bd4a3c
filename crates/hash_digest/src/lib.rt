// BLAKE3 of up to 65,700 bytes: the tree over the chunks, and the digest of one slice and of two parts in a row.
#![tactic(auto)]

ghost use Rattle.std.specs.Prelude.{◌≡◌, true, ◌++◌, ◌+◌, ◌-◌, ◌*◌, ◌^◌, ◌<◌, ◌≤◌, length};
ghost use Rattle.hash_lanes.specs.Lanes.{whole_of};
ghost use Rattle.hash_digest.specs.Blake3.{tree, hash, longest, digest_of, reply};

use hash_chunk::{chunk_value, parent_value};
use hash_lanes::{power, whole};
use math_parts::{back, front, joined};
use std::error::Error;
use std::fmt;

// The longest input.
pub const LONGEST: usize = 65700;

// An input is longer than the longest.
#[derive(Clone, Copy, Debug, PartialEq, Eq)]
pub struct TooLong;

impl fmt::Display for TooLong {
    // What a reader is told.
    fn fmt<W: fmt::Write>(&self, f: &mut fmt::Formatter<W>) -> fmt::Result {
        write!(f, "more than {} bytes", LONGEST)
    }
}

impl Error for TooLong {}

// A digest as C gets it: 8 words, whose little-endian bytes are the 32 of the hash; or a number other than 0, and zeros.
#[repr(C)]
#[derive(Clone, Copy)]
pub struct Hashed {
    pub number: u32,
    pub words: [u32; 8],
}

// Question 6 refuses a longer input.
const REFUSED: u32 = 6;

impl From<Result<[u32; 8], TooLong>> for Hashed {
    ghost from_gives = { λ digest r. r ≡ reply digest };

    // C's reply to a digest.
    fn from(digest: Result<[u32; 8], TooLong>) -> Hashed {
        match digest {
            Ok(words) => Hashed { number: 0, words },
            Err(TooLong) => Hashed {
                number: REFUSED,
                words: [0; 8],
            },
        }
    }
}

// Whether head and tail are 2^k whole chunks: from 4 to 64 without a head, or 4 with one.
fn is_whole(head: &[u8], tail: &[u8], k: u32) -> bool
    requires { length head.now + length tail.now ≤ 131072 }
    ensures { result ≡ true → (2 ≤ k) × (k ≤ 6) × (length head.now + length tail.now ≡ 1024 * 2 ^ k) × (0 < length head.now → k ≡ 2) }
{
    if k < 2 || 6 < k {
        return false;
    }
    if head.is_empty() {
        return tail.len() == 1024 * power(k);
    }
    k == 2 && head.len() + tail.len() == 4096
}

// The tree over 2^k whole chunks; with a head there are four, which are joined first.
fn whole_parts(head: &[u8], tail: &[u8], k: u32, t: u64, e: u32) -> [u32; 8]
    requires { (2 ≤ k) × (k ≤ 6) × (length head.now + length tail.now ≡ 1024 * 2 ^ k) × (0 < length head.now → k ≡ 2) × (t + 2 ^ k ≤ 128) × (e ≤ 8) }
    ensures { result ≡ whole_of (k - 2) (head.now ++ tail.now) t e }
{
    if head.is_empty() {
        return whole(tail, k - 2, t, e);
    }
    let b: [u8; 4096] = joined(head, tail);
    whole(&b, 0, t, e)
}

// The chaining value of the tree over up to 2^k chunks, from chunk t on.
fn subtree(head: &[u8], tail: &[u8], k: u32, t: u64, e: u32) -> [u32; 8]
    requires { (length head.now + length tail.now ≤ 1024 * 2 ^ k) × ((k ≤ 7) × ((t + 2 ^ k ≤ 128) × (e ≤ 8))) }
    ensures { result ≡ tree k (head.now ++ tail.now) t e }
{
    if k == 0 {
        return chunk_value(head, tail, t, e);
    }
    if is_whole(head, tail, k) {
        return whole_parts(head, tail, k, t, e);
    }
    let j = k - 1;
    let n = power(j);
    let half = 1024 * n;
    if head.len() + tail.len() <= half {
        return subtree(head, tail, j, t, e);
    }
    let m = half.saturating_sub(head.len());
    let l = subtree(front(head, half), front(tail, m), j, t, 0);
    let r = subtree(back(head, half), back(tail, m), j, t + n as u64, 0);
    parent_value(l, r, e)
}

// The hash of head and tail in a row.
pub fn hash_parts(head: &[u8], tail: &[u8]) -> [u32; 8]
    requires { length head.now + length tail.now ≤ longest }
    ensures { result ≡ hash (head.now ++ tail.now) }
{
    if head.len() + tail.len() <= 1024 {
        return chunk_value(head, tail, 0, 8);
    }
    subtree(head, tail, 7, 0, 8)
}

// The hash of one slice.
pub fn hash(s: &[u8]) -> [u32; 8]
    requires { length s.now ≤ longest }
    ensures { result ≡ hash s.now }
{
    hash_parts(front(s, 0), s)
}

// The digest of head and tail in a row.
pub fn digest_parts(head: &[u8], tail: &[u8]) -> Result<[u32; 8], TooLong>
    ensures { reply result ≡ digest_of (head.now ++ tail.now) }
{
    if LONGEST < head.len() {
        return Err(TooLong);
    }
    if LONGEST - head.len() < tail.len() {
        return Err(TooLong);
    }
    Ok(hash_parts(head, tail))
}

// The digest of one slice.
pub fn digest(s: &[u8]) -> Result<[u32; 8], TooLong>
    ensures { reply result ≡ digest_of s.now }
{
    digest_parts(front(s, 0), s)
}
