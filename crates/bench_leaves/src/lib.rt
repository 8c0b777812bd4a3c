// The digest and the stream block as C functions, for the benchmark of these two leaves.
#![tactic(auto)]

ghost use Rattle.std.specs.Prelude.{◌≡◌, ◌++◌};
ghost use Rattle.rand_chacha8.specs.Chacha.{block_of};
ghost use Rattle.hash_digest.specs.Blake3.{digest_of};
ghost use Rattle.bench_leaves.specs.Leaves.{key_of};

use hash_digest::{Hashed, digest_parts};

// A stream's block, as C gets it: a C function returns no array.
#[repr(C)]
#[derive(Clone, Copy)]
pub struct Block {
    pub words: [u32; 16],
}

// The digest of head and tail in a row.
#[unsafe(no_mangle)]
pub extern "C" fn leaf_digest(head: &[u8], tail: &[u8]) -> Hashed
    ensures { result ≡ digest_of (head.now ++ tail.now) }
{
    Hashed::from(digest_parts(head, tail))
}

// Block n of the stream whose key words are all k.
#[unsafe(no_mangle)]
pub extern "C" fn leaf_block(k: u32, n: u64) -> Block
    ensures { result.words ≡ block_of (key_of k) n }
{
    let words = rand_chacha8::block([k; 8], n);
    Block { words }
}
