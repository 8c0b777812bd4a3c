// Four whole subtrees of BLAKE3 at a time, in lanes that LLVM turns into vector code.
#![tactic(auto)]

mod nodes;
mod rounds;
mod rows;

ghost use Rattle.std.specs.Prelude.{◌≡◌, ℕ, ◌+◌, ◌*◌, ◌<◌, ◌≤◌, ◌^◌, length, take, drop};
ghost use Rattle.hash_compress.specs.Compress.{iv, compressed};
ghost use Rattle.math_word.specs.Words.{list_of};
ghost use Rattle.hash_chunk.specs.Chunk.{words_of, chunk, parent};
ghost use Rattle.hash_lanes.specs.Lanes.{lane8, full, whole_of};

use hash_chunk::{parent_value, words_whole};
use hash_compress::{IV, fold, start};
use math_parts::back;
use math_word::Words;
use nodes::node_blocks;
use rounds::seven_rounds;

// The compression of a whole block.
fn compress_block(h: [u32; 8], m: Words, t: u64, d: u32) -> [u32; 8]
    ensures { result ≡ compressed h (list_of m) t 64 d }
{
    fold(seven_rounds(start(h, t, 64, d), m))
}

// The chaining value of lane l.
fn lane(h: &[u32; 32], l: usize) -> [u32; 8]
    requires { l < 4 }
    ensures { result ≡ lane8 h.now l }
{
    [
        h[0 + l],
        h[4 + l],
        h[8 + l],
        h[12 + l],
        h[16 + l],
        h[20 + l],
        h[24 + l],
        h[28 + l],
    ]
}

// n is how far apart the lanes lie, here and in `chunks`, not how many bytes of s count. The eight stores stay apart: with a loop inside this one LLVM makes no vector code (0.65 GB/s against 1.5).
// One block of each lane l: the 64 bytes of s from n * l on, with the counter t + u * l.
fn step(h: [u32; 32], s: &[u8], n: usize, t: u64, u: u64, d: u32) -> [u32; 32]
    requires { (3 * n + 64 ≤ length s.now) × (t ≤ 2 ^ 32) × (u ≤ 2 ^ 32) }
    ensures { (l : ℕ) → l < 4 → lane8 result l ≡ compressed (lane8 h l) (words_of (drop (n * l) s.now)) (t + u * l) 64 d }
{
    let mut out = [0u32; 32];
    for l in 0..4usize {
        let m = words_whole(back(s, n * l));
        let r = compress_block(lane(&h, l), m, t + u * l as u64, d);
        out[0 + l] = r[0];
        out[4 + l] = r[1];
        out[8 + l] = r[2];
        out[12 + l] = r[3];
        out[16 + l] = r[4];
        out[20 + l] = r[5];
        out[24 + l] = r[6];
        out[28 + l] = r[7];
    }
    out
}

// The initial chaining value in each lane.
fn iv_lanes() -> [u32; 32]
    ensures { (l : ℕ) → l < 4 → lane8 result l ≡ iv }
{
    [
        IV[0], IV[0], IV[0], IV[0], IV[1], IV[1], IV[1], IV[1], IV[2], IV[2], IV[2], IV[2], IV[3],
        IV[3], IV[3], IV[3], IV[4], IV[4], IV[4], IV[4], IV[5], IV[5], IV[5], IV[5], IV[6], IV[6],
        IV[6], IV[6], IV[7], IV[7], IV[7], IV[7],
    ]
}

// The chaining values of four chunks, n bytes apart, whose counters are u apart.
fn chunks(s: &[u8], n: usize, t: u64, u: u64) -> [u32; 32]
    requires { (3 * n + 1024 ≤ length s.now) × (t ≤ 2 ^ 32) × (u ≤ 2 ^ 32) }
    ensures { (l : ℕ) → l < 4 → lane8 result l ≡ chunk (take 1024 (drop (n * l) s.now)) (t + u * l) 0 }
{
    let mut h = iv_lanes();
    let mut d: u32 = 1;
    for i in 0..15usize {
        let next = step(h, back(s, 64 * i), n, t, u, d);
        h = next;
        d = 0;
    }
    step(h, back(s, 960), n, t, u, d + 2)
}

// The parents of the lanes of a and b: lane l of a is the left child in lane l, that of b the right one.
fn parents(a: [u32; 32], b: [u32; 32]) -> [u32; 32]
    ensures { (l : ℕ) → l < 4 → lane8 result l ≡ parent (lane8 a l) (lane8 b l) 0 }
{
    let m = node_blocks(a, b);
    step(iv_lanes(), &m, 64, 0, 0, 4)
}

// 2^k
pub fn power(k: u32) -> usize
    requires { k ≤ 6 }
    ensures { (result ≡ 2 ^ k) × (result ≤ 64) }
{
    1 << k
}

// `k ≤ 6` and what t may be stand at each function, here and in hash_digest: how many chunks lie behind t differs, one subtree here, four of them in `whole`, so no struct of k and t says it.
// The chaining values of four subtrees of 2^k chunks, n bytes apart, whose counters are u apart.
fn level(s: &[u8], k: u32, n: usize, t: u64, u: u64) -> [u32; 32]
    requires { (3 * n + 1024 * 2 ^ k ≤ length s.now) × ((k ≤ 6) × ((t + 2 ^ k ≤ 128) × (u ≤ 64))) }
    ensures { (l : ℕ) → l < 4 → lane8 result l ≡ full k (drop (n * l) s.now) (t + u * l) }
{
    if k == 0 {
        return chunks(s, n, t, u);
    }
    let j = k - 1;
    let m = power(j);
    let a = level(s, j, n, t, u);
    let b = level(back(s, 1024 * m), j, n, t + m as u64, u);
    parents(a, b)
}

// The chaining value of the tree over four whole subtrees of 2^k chunks, from chunk t on.
pub fn whole(s: &[u8], k: u32, t: u64, e: u32) -> [u32; 8]
    requires { (4096 * 2 ^ k ≤ length s.now) × ((k ≤ 6) × ((t + 4 * 2 ^ k ≤ 128) × (e ≤ 8))) }
    ensures { result ≡ whole_of k s.now t e }
{
    let m = power(k);
    let h = level(s, k, 1024 * m, t, m as u64);
    let left = parent_value(lane(&h, 0), lane(&h, 1), 0);
    let right = parent_value(lane(&h, 2), lane(&h, 3), 0);
    parent_value(left, right, e)
}
