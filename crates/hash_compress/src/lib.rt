// BLAKE3's compression function. The state and the message are words by name, and each function is called in one place,
// so that LLVM inlines the round and keeps the state in registers: 80 ns a block (ChaCha's block: 41 ns by name, 83 over arrays).
#![tactic(auto)]

ghost use Rattle.std.specs.Prelude.{◌≡◌};
ghost use Rattle.hash_compress.specs.Compress.{mix_of, round_of, permuted, rounds, initial, folded, compressed};
ghost use Rattle.math_word.specs.Words.{list_of};

use math_word::{Quad, Words, rotr};

// The initial chaining value.
pub const IV: [u32; 8] = [
    0x6a09e667, 0xbb67ae85, 0x3c6ef372, 0xa54ff53a, 0x510e527f, 0x9b05688c, 0x1f83d9ab, 0x5be0cd19,
];

// G, its two halves written out as the paper has them: a half with its turns as parameters would ask `0 < n` and `n < 32` of each.
fn mix(a: u32, b: u32, c: u32, d: u32, x: u32, y: u32) -> Quad
    ensures { result ≡ mix_of (record { a = a; b = b; c = c; d = d }) x y }
{
    let a = a.wrapping_add(b).wrapping_add(x);
    let d = rotr(d ^ a, 16);
    let c = c.wrapping_add(d);
    let b = rotr(b ^ c, 12);
    let a = a.wrapping_add(b).wrapping_add(y);
    let d = rotr(d ^ a, 8);
    let c = c.wrapping_add(d);
    let b = rotr(b ^ c, 7);
    Quad { a, b, c, d }
}

// One round: the four columns, then the four diagonals. ChaCha's double round goes the same way, but its step takes no message words, so each is written out as its paper has it.
fn round(v: Words, m: Words) -> Words
    ensures { list_of result ≡ round_of (list_of v) (list_of m) }
{
    let c0 = mix(v.w0, v.w4, v.w8, v.w12, m.w0, m.w1);
    let c1 = mix(v.w1, v.w5, v.w9, v.w13, m.w2, m.w3);
    let c2 = mix(v.w2, v.w6, v.w10, v.w14, m.w4, m.w5);
    let c3 = mix(v.w3, v.w7, v.w11, v.w15, m.w6, m.w7);
    let d0 = mix(c0.a, c1.b, c2.c, c3.d, m.w8, m.w9);
    let d1 = mix(c1.a, c2.b, c3.c, c0.d, m.w10, m.w11);
    let d2 = mix(c2.a, c3.b, c0.c, c1.d, m.w12, m.w13);
    let d3 = mix(c3.a, c0.b, c1.c, c2.d, m.w14, m.w15);
    Words {
        w0: d0.a,
        w1: d1.a,
        w2: d2.a,
        w3: d3.a,
        w4: d3.b,
        w5: d0.b,
        w6: d1.b,
        w7: d2.b,
        w8: d2.c,
        w9: d3.c,
        w10: d0.c,
        w11: d1.c,
        w12: d1.d,
        w13: d2.d,
        w14: d3.d,
        w15: d0.d,
    }
}

// The message words in the next round's order.
#[inline(always)]
pub fn permute(m: Words) -> Words
    ensures { list_of result ≡ permuted (list_of m) }
{
    Words {
        w0: m.w2,
        w1: m.w6,
        w2: m.w3,
        w3: m.w10,
        w4: m.w7,
        w5: m.w0,
        w6: m.w4,
        w7: m.w13,
        w8: m.w1,
        w9: m.w11,
        w10: m.w12,
        w11: m.w5,
        w12: m.w9,
        w13: m.w14,
        w14: m.w15,
        w15: m.w8,
    }
}

// Seven rounds, the message permuted between them.
fn seven_rounds(v: Words, m: Words) -> Words
    ensures { list_of result ≡ rounds 7 (list_of v) (list_of m) }
{
    let mut state = v;
    let mut message = m;
    for _ in 0..7u32 {
        state = round(state, message);
        message = permute(message);
    }
    state
}

// The state before the rounds: chaining value, four words of the IV, counter, block length, flags. The counter's halves are the quotient and remainder that `initial` names.
pub fn start(h: [u32; 8], t: u64, b: u32, d: u32) -> Words
    ensures { list_of result ≡ initial h t b d }
{
    let lo = (t % 4294967296) as u32;
    let hi = (t / 4294967296) as u32;
    Words {
        w0: h[0],
        w1: h[1],
        w2: h[2],
        w3: h[3],
        w4: h[4],
        w5: h[5],
        w6: h[6],
        w7: h[7],
        w8: IV[0],
        w9: IV[1],
        w10: IV[2],
        w11: IV[3],
        w12: lo,
        w13: hi,
        w14: b,
        w15: d,
    }
}

// The chaining value, or the hash, from the state after the rounds.
pub fn fold(v: Words) -> [u32; 8]
    ensures { result ≡ folded (list_of v) }
{
    [
        v.w0 ^ v.w8,
        v.w1 ^ v.w9,
        v.w2 ^ v.w10,
        v.w3 ^ v.w11,
        v.w4 ^ v.w12,
        v.w5 ^ v.w13,
        v.w6 ^ v.w14,
        v.w7 ^ v.w15,
    ]
}

// The compression of a block of b bytes, with the counter t and the flags d.
pub fn compress(h: [u32; 8], m: Words, t: u64, b: u32, d: u32) -> [u32; 8]
    ensures { result ≡ compressed h (list_of m) t b d }
{
    fold(seven_rounds(start(h, t, b, d), m))
}
