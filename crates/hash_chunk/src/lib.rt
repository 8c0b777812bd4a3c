// BLAKE3's chunks and parent nodes, over two parts in a row that are not joined.
#![tactic(auto)]

ghost use Rattle.std.specs.Prelude.{◌≡◌, ◌++◌, ◌+◌, ◌≤◌, length};
ghost use Rattle.math_word.specs.Words.{list_of};
ghost use Rattle.hash_chunk.specs.Chunk.{words_of, chunk, parent};

use hash_compress::{IV, compress};
use math_parts::{back, joined};
use math_word::{Words, le_word};

// The words of a whole block.
pub fn words_whole(s: &[u8]) -> Words
    requires { 64 ≤ length s.now }
    ensures { list_of result ≡ words_of s.now }
{
    Words {
        w0: le_word(s, 0),
        w1: le_word(s, 4),
        w2: le_word(s, 8),
        w3: le_word(s, 12),
        w4: le_word(s, 16),
        w5: le_word(s, 20),
        w6: le_word(s, 24),
        w7: le_word(s, 28),
        w8: le_word(s, 32),
        w9: le_word(s, 36),
        w10: le_word(s, 40),
        w11: le_word(s, 44),
        w12: le_word(s, 48),
        w13: le_word(s, 52),
        w14: le_word(s, 56),
        w15: le_word(s, 60),
    }
}

// The words of the next block.
fn block_words(head: &[u8], tail: &[u8]) -> Words
    ensures { list_of result ≡ words_of (head.now ++ tail.now) }
{
    if 64 <= head.len() {
        return words_whole(head);
    }
    if head.is_empty() && 64 <= tail.len() {
        return words_whole(tail);
    }
    let block: [u8; 64] = joined(head, tail);
    words_whole(&block)
}

// The chaining value of chunk t. `e` is 0, or 8 at the root; `e ≤ 8` stands here, in parent_value and in three functions above: a bool or an enum would take fewer numbers than these promise for.
pub fn chunk_value(head: &[u8], tail: &[u8], t: u64, e: u32) -> [u32; 8]
    requires { (length head.now + length tail.now ≤ 1024) × (e ≤ 8) }
    ensures { result ≡ chunk (head.now ++ tail.now) t e }
{
    let mut h = IV;
    let mut d: u32 = 1;
    let mut front = head;
    let mut rest = tail;
    // No `for`: it counts nothing, and goes on while more than a block is left.
    while 64 < front.len() + rest.len() {
        let next = compress(h, block_words(front, rest), t, 64, d);
        h = next;
        d = 0;
        let more = back(rest, 64usize.saturating_sub(front.len()));
        rest = more;
        let left = back(front, 64);
        front = left;
    }
    let n = (front.len() + rest.len()) as u32;
    compress(h, block_words(front, rest), t, n, d + 2 + e)
}

// The message of a parent node: the chaining values of its children.
fn parent_words(l: [u32; 8], r: [u32; 8]) -> Words
    ensures { list_of result ≡ l ++ r }
{
    Words {
        w0: l[0],
        w1: l[1],
        w2: l[2],
        w3: l[3],
        w4: l[4],
        w5: l[5],
        w6: l[6],
        w7: l[7],
        w8: r[0],
        w9: r[1],
        w10: r[2],
        w11: r[3],
        w12: r[4],
        w13: r[5],
        w14: r[6],
        w15: r[7],
    }
}

// The chaining value of a parent node.
pub fn parent_value(l: [u32; 8], r: [u32; 8], e: u32) -> [u32; 8]
    requires { e ≤ 8 }
    ensures { result ≡ parent l r e }
{
    compress(IV, parent_words(l, r), 0, 64, 4 + e)
}
