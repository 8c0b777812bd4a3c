// The id of an entry: the first 8 bytes, little-endian, of the digest of its type name, its scope and its wire bytes.
#![tactic(auto)]

ghost use Rattle.std.specs.Prelude.{◌≡◌, ◌++◌, ◌+◌, ◌≤◌, ◌<◌, length, take};
ghost use Rattle.spec_network.specs.Opening.{global, longest_key};
ghost use Rattle.spec_network.specs.Tables.{cell, text_at, shard_at, names_width};
ghost use Rattle.spec_network.specs.Real.{scope_bytes, id_of};
ghost use Rattle.call_message.specs.Message.{Named, longest_head, longest_scope};

use math_parts::front;

// The longest head: a name, a scope byte and a key.
const HEAD: usize = 81;

// The text at i of the names.
fn text(names: &[u8], i: usize) -> &[u8]
    requires { i < length names.now }
    ensures { result.now ≡ text_at names.now i }
{
    math_parts::text(names, i)
}

// Byte 0 for a global entry, else byte 1 and the shard's key bytes, stored from `at`. Answers where they end.
fn put_scope(buf: &mut [u8], at: usize, names: &[u8], scope: usize) -> usize
    requires { (length names.now ≡ names_width) × (scope ≤ global) × (cell names.now (shard_at scope) ≤ longest_key) × (at + longest_scope ≤ length buf.old) }
    ensures { (take result buf.new ≡ take at buf.old ++ scope_bytes names.now scope) × (result ≤ at + longest_scope) }
{
    if scope as u64 == ask_tables::GLOBAL {
        buf[at] = 0;
        return at + 1;
    }
    let key = text(names, ask_rows::KEYS + scope * ask_rows::SHARD_KEY_WIDTH);
    buf[at] = 1;
    let end = at + 1 + key.len();
    buf[at + 1..end].copy_from_slice(key);
    end
}

// The id of an entry, with a buffer for its head. It is no Vec: nothing here is on the heap of the caller's program.
fn id_with(buf: &mut [u8], names: &[u8], kind: usize, scope: usize, wire: &[u8]) -> u64
    requires { Named names.now kind scope × (length wire.now ≤ 65536) × (longest_head ≤ length buf.old) }
    ensures { result ≡ id_of names.now kind scope wire.now }
{
    let name = text(names, kind * ask_rows::NAME_WIDTH);
    buf[0..name.len()].copy_from_slice(name);
    let n = put_scope(buf, name.len(), names, scope);
    let d = hash_digest::hash_parts(front(buf, n), wire);
    let low = u64::from(d[0]);
    let high = u64::from(d[1]);
    low + 4294967296 * high
}

// The id of an entry.
pub fn id_of(names: &[u8], kind: usize, scope: usize, wire: &[u8]) -> u64
    requires { Named names.now kind scope × (length wire.now ≤ 65536) }
    ensures { result ≡ id_of names.now kind scope wire.now }
{
    let mut buf = [0u8; HEAD];
    id_with(&mut buf, names, kind, scope, wire)
}
