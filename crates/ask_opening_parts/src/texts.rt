// Question 2, of the names: type names and shard keys within their lengths, and no two alike. A text is a length and so many bytes; the texts of a list start `stride` bytes apart.
ghost use Rattle.std.specs.Prelude.{◌≡◌, [], ◌∷◌, ◌+◌, ◌*◌, ◌<◌, drop};
ghost use Rattle.spec_network.specs.Lists.{every, same, some_of, unlike};
ghost use Rattle.spec_network.specs.Tables.{text_at};
ghost use Rattle.spec_network.specs.Limits.{text_tests, unlike_tests};
ghost use Rattle.ask_opening_parts.specs.Texts.{Laid, Short, NamesHeld, texts_from, Inside, counted};

use math_parts::text;

// Are the texts at i and j alike?
fn same_text(names: &[u8], i: usize, j: usize) -> bool
    requires { Inside names.now i × Inside names.now j }
    ensures { result ≡ same (text_at names.now i) (text_at names.now j) }
{
    text(names, i) == text(names, j)
}

// Is text k of n met again behind it?
fn repeated(names: &[u8], start: usize, stride: usize, n: usize, k: usize) -> bool
    requires { Laid names.now start stride n × Short names.now start stride n × (k < n) }
    ensures { result ≡ some_of (same (text_at names.now (start + k * stride))) (drop (k + 1) (texts_from names.now start stride n)) }
{
    for j in k + 1..n {
        if same_text(names, start + k * stride, start + j * stride) {
            return true;
        }
    }
    false
}

// Are no two of n texts alike?
fn all_unlike(names: &[u8], start: usize, stride: usize, n: usize) -> bool
    requires { Laid names.now start stride n × Short names.now start stride n }
    ensures { result ≡ unlike (texts_from names.now start stride n) }
{
    for k in 0..n {
        if repeated(names, start, stride, n, k) {
            return false;
        }
    }
    true
}

// Type names and shard keys.
pub fn names_admitted(names: &[u8], types: u64, shards: u64) -> bool
    requires { NamesHeld names.now (counted types shards) }
    ensures { result ≡ every (every (text_tests (counted types shards) names.now) ∷ every (unlike_tests (counted types shards) names.now) ∷ []) }
{
    let types = types as usize;
    let shards = shards as usize;
    if !ask_rows::lengths_within(
        names,
        0,
        ask_rows::NAME_WIDTH,
        types,
        ask_tables::LONGEST_NAME,
    ) {
        return false;
    }
    if !ask_rows::lengths_within(
        names,
        ask_rows::KEYS,
        ask_rows::SHARD_KEY_WIDTH,
        shards,
        ask_tables::LONGEST_KEY,
    ) {
        return false;
    }
    if !all_unlike(names, 0, ask_rows::NAME_WIDTH, types) {
        return false;
    }
    all_unlike(names, ask_rows::KEYS, ask_rows::SHARD_KEY_WIDTH, shards)
}
