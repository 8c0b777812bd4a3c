// Parts of a slice for any length: the first elements, and what follows them. They take a length beside the slice because they make its parts.
#![tactic(auto)]

ghost use Rattle.std.specs.Prelude.{◌≡◌, ◌<◌, ◌≤◌, ◌+◌, ◌-◌, ◌++◌, length, slice_index, take, drop, replicate};

// The first n elements, or all where there are fewer.
pub fn front<T>(s: &[T], n: usize) -> &[T]
    ensures { result.now ≡ take n s.now }
{
    &s[..n.min(s.len())]
}

// What follows the first n elements.
pub fn back<T>(s: &[T], n: usize) -> &[T]
    ensures { result.now ≡ drop n s.now }
{
    &s[n.min(s.len())..]
}

// The text at i: a length, and so many bytes behind it.
pub fn text(s: &[u8], i: usize) -> &[u8]
    requires { i < length s.now }
    ensures { result.now ≡ take (slice_index s.now i) (drop (i + 1) s.now) }
{
    front(back(s, i + 1), usize::from(s[i]))
}

// The bytes of head and tail in a row, as far as they fit; zeros follow where there are fewer.
pub fn joined<const N: usize>(head: &[u8], tail: &[u8]) -> [u8; N]
    requires { length head.now ≤ N }
    ensures { result ≡ head.now ++ (take (N - length head.now) tail.now ++ replicate (N - length head.now - length tail.now) 0) }
{
    let mut out = [0; N];
    let n = head.len();
    let m = (N - n).min(tail.len());
    let bytes = &mut out[..];
    bytes[..n].copy_from_slice(head);
    bytes[n..n + m].copy_from_slice(&tail[..m]);
    out
}
