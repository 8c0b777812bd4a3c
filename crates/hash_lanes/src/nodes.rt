// The blocks of four parent nodes as bytes, side by side, so that they are read as the chunks' blocks are.
ghost use Rattle.std.specs.Prelude.{◌≡◌, ◌++◌, ℕ, ◌+◌, ◌*◌, ◌%◌, ◌<◌, ◌≤◌, length, drop};
ghost use Rattle.math_word.specs.Word.{le_word};
ghost use Rattle.hash_chunk.specs.Chunk.{words_of};
ghost use Rattle.hash_lanes.specs.Lanes.{lane8};

// The word w into b, from byte p on.
fn put(b: &mut [u8; 256], p: usize, w: u32)
    requires { (p % 4 ≡ 0) × (p + 4 ≤ 256) × (length b.old ≡ 256) }
    ensures { (length b.new ≡ 256) × (le_word b.new p ≡ w) × ((q : ℕ) → q % 4 ≡ 0 → (q ≡ p → ⊥) → le_word b.new q ≡ le_word b.old q) }
{
    let bytes = &mut b[..];
    bytes[p..p + 4].copy_from_slice(&w.to_le_bytes());
}

// The blocks of the parents of the lanes of a and b: that of lane l from byte 64 l on.
pub fn node_blocks(a: [u32; 32], b: [u32; 32]) -> [u8; 256]
    ensures { (l : ℕ) → l < 4 → words_of (drop (64 * l) result) ≡ lane8 a l ++ lane8 b l }
{
    let mut out = [0u8; 256];
    for i in 0..32usize {
        let p = 64 * (i % 4) + 4 * (i / 4);
        put(&mut out, p, a[i]);
        put(&mut out, p + 32, b[i]);
    }
    out
}
