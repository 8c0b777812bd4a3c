// The words of BLAKE3's and ChaCha's states by name, their rotations by shifts, little-endian reads, and the product of two 64-bit numbers as two halves.
#![tactic(auto)]

ghost use Rattle.std.specs.Prelude.{◌≡◌, ◌+◌, ◌*◌, ◌/◌, ◌%◌, ◌^◌, ◌<◌, ◌≤◌, length};
ghost use Rattle.math_word.specs.Word.{rotl32, rotr32, le_word};

// Four words that are mixed with each other: BLAKE3's G, ChaCha's quarter-round.
#[derive(Clone, Copy)]
pub struct Quad {
    pub a: u32,
    pub b: u32,
    pub c: u32,
    pub d: u32,
}

// 16 words by name: a state, or a block's message. As an array they are not kept in registers: a ChaCha block takes 83 ns so, and 41 by name.
#[derive(Clone, Copy)]
pub struct Words {
    pub w0: u32,
    pub w1: u32,
    pub w2: u32,
    pub w3: u32,
    pub w4: u32,
    pub w5: u32,
    pub w6: u32,
    pub w7: u32,
    pub w8: u32,
    pub w9: u32,
    pub w10: u32,
    pub w11: u32,
    pub w12: u32,
    pub w13: u32,
    pub w14: u32,
    pub w15: u32,
}

// x rotated left by n. By two shifts alone: std's rotations ask for remainders, and a draw takes none.
pub fn rotl(x: u32, n: u32) -> u32
    requires { (0 < n) × (n < 32) }
    ensures { result ≡ rotl32 x n }
{
    (x << n) | (x >> (32 - n))
}

// x rotated right by n.
pub fn rotr(x: u32, n: u32) -> u32
    requires { (0 < n) × (n < 32) }
    ensures { result ≡ rotr32 x n }
{
    (x >> n) | (x << (32 - n))
}

// The little-endian word at byte i.
#[tactic(auto, unfolding(crate::specs::Word::le_word))]
pub fn le_word(s: &[u8], i: usize) -> u32
    requires { i + 4 ≤ length s.now }
    ensures { result ≡ le_word s.now i }
{
    u32::from_le_bytes([s[i], s[i + 1], s[i + 2], s[i + 3]])
}

// The low 32 bits of a number, by a mask.
pub fn low_half(x: u64) -> u64
    ensures { (result ≡ x % 2 ^ 32) × (result < 2 ^ 32) }
{
    x & 4294967295
}

// A number of 128 bits.
#[derive(Clone, Copy)]
pub struct Halves {
    pub high: u64,
    pub low: u64,
}

// The product of two numbers: each is cut into halves of 32 bits, and the four products are added
// column by column with their carries.
pub fn product(u: u64, v: u64) -> Halves
    ensures { (result.high ≡ u * v / 2 ^ 64) × (result.low ≡ u * v % 2 ^ 64) }
{
    let u0 = low_half(u);
    let u1 = u >> 32;
    let v0 = low_half(v);
    let v1 = v >> 32;
    let w0 = u0 * v0;
    let t = u1 * v0 + (w0 >> 32);
    let w1 = low_half(t) + u0 * v1;
    let high = u1 * v1 + (t >> 32) + (w1 >> 32);
    let low = low_half(w1) * 4294967296 + low_half(w0);
    Halves { high, low }
}
