// The key of a link's stream.
ghost use Rattle.std.specs.Prelude.{◌≡◌, length};
ghost use Rattle.rand_streams.specs.Link.{link_bytes, link_key};

use math_parts::joined;

// Seed, "link", from and to, little-endian.
fn link_bytes(seed: u64, from: u32, to: u32) -> [u8; 20]
    ensures value { result ≡ link_bytes seed «from» to }
    ensures value_2 { 20 ≡ length result }
{
    let ends: [u8; 8] = joined(&from.to_le_bytes(), &to.to_le_bytes());
    let named: [u8; 12] = joined(b"link", &ends);
    joined(&seed.to_le_bytes(), &named)
}

// The key of the stream of the link from `from` to `to`, as 8 words.
pub fn link_key(seed: u64, from: u32, to: u32) -> [u32; 8]
    ensures { result ≡ link_key seed «from» to }
{
    let bytes = link_bytes(seed, from, to);
    hash_digest::hash(&bytes)
}
