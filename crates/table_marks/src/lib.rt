// The marks of a till: the ids it has seen, in a part of a table: the older ones, then the newest, either part rising. An id's place is found by halving.
#![tactic(auto)]

ghost use Rattle.std.specs.Prelude.{◌≡◌, ◌+◌, ◌≤◌, ◌<◌, length, get_or, take, drop, ◌&&◌, ◌++◌, ltb};
ghost use Rattle.table_shift.specs.Shift.{put_words};
ghost use Rattle.table_marks.specs.Marks.{ids_of, halve, halved, leads_to, position, found_in, placed_at, placed_in, removed_in, merged, refilled, newest, found, listed, placed, removed};

use std::hint::select_unpredictable;

// So many of the newest ids stand apart, or fewer.
const NEWEST: usize = 128;

// What is left to search: the place is one of lo .. lo + n.
#[derive(Clone, Copy)]
struct Span {
    lo: usize,
    n: usize,
}

// `s.lo + s.n ≤ length ids`, here and in the halvings below: a span of the lent ids; as a slice of its own it would lose the place that is asked for.
// One halving. It branches on the count alone, so that no id is guessed at.
fn halve_once(ids: &[u64], s: Span, id: u64) -> Span
    requires { s.lo + s.n ≤ length ids.now }
    ensures is { result ≡ halved ids.now id s }
    ensures within { result.lo + result.n ≤ s.lo + s.n }
{
    let lo = s.lo;
    let n = s.n;
    if n == 0 {
        return s;
    }
    let mid = lo + (n - 1) / 2;
    let next = select_unpredictable(ids[mid] < id, mid + 1, lo);
    Span { lo: next, n: n / 2 }
}

// Two at once, where so many are left: the ids that the second may ask for are read beside the first's.
fn halve_two(ids: &[u64], s: Span, id: u64) -> Span
    requires { s.lo + s.n ≤ length ids.now }
    ensures is { leads_to ids.now id result ≡ leads_to ids.now id s }
    ensures within { result.lo + result.n ≤ s.lo + s.n }
{
    let lo = s.lo;
    let n = s.n;
    let half = n / 2;
    if half == 0 {
        return s;
    }
    let mid = lo + (n - 1) / 2;
    let low = lo + (half - 1) / 2;
    let high = mid + 1 + (half - 1) / 2;
    let left = select_unpredictable(ids[low] < id, low + 1, lo);
    let right = select_unpredictable(ids[high] < id, high + 1, mid + 1);
    let next = select_unpredictable(ids[mid] < id, right, left);
    Span {
        lo: next,
        n: half / 2,
    }
}

// Four of them, where so many are left.
fn halve_four(ids: &[u64], s: Span, id: u64) -> Span
    requires { s.lo + s.n ≤ length ids.now }
    ensures is { leads_to ids.now id result ≡ leads_to ids.now id s }
    ensures within { result.lo + result.n ≤ s.lo + s.n }
{
    let a = halve_two(ids, s, id);
    halve_two(ids, a, id)
}

// As many as are left. The `while` counts no index: it goes on until none is left.
fn halve_on(ids: &[u64], s: Span, id: u64) -> usize
    requires { s.lo + s.n ≤ length ids.now }
    ensures is { result ≡ halve s.n ids.now id s.lo s.n }
    ensures within { result ≤ s.lo + s.n }
{
    let mut lo = s.lo;
    let mut n = s.n;
    while 0 < n {
        let a = halve_once(ids, Span { lo: lo, n: n }, id);
        lo = a.lo;
        n = a.n;
    }
    lo
}

// The place of id. Twelve halvings stand in a row: they leave at most one below 4,096 ids.
fn find(ids: &[u64], id: u64) -> usize
    ensures is { result ≡ position id ids.now }
    ensures within { result ≤ length ids.now }
{
    let a = halve_four(
        ids,
        Span {
            lo: 0,
            n: ids.len(),
        },
        id,
    );
    let b = halve_four(ids, a, id);
    let c = halve_four(ids, b, id);
    halve_on(ids, c, id)
}

// Does id stand in a part?
fn has_in(ids: &[u64], id: u64) -> bool
    ensures { result ≡ found_in id ids.now }
{
    let p = find(ids, id);
    p < ids.len() && ids[p] == id
}

// `start + count ≤ length seen`, here and below: the till's part of the table of all tills. No slice of the ids: `insert` takes the free word behind them and `remove` leaves one,
// so the count would stand beside the slice as well, no plainer.
// Does id stand among them?
pub fn has(seen: &[u64], start: usize, count: usize, id: u64) -> bool
    requires { start + count ≤ length seen.now }
    ensures { result ≡ found id (ids_of seen.now start count) }
{
    let ids = &seen[start..start + count];
    let k = ids.len() - ids.len() % NEWEST;
    has_in(&ids[..k], id) || has_in(&ids[k..], id)
}

// id at place p; those from there on move up.
fn insert_at(seen: &mut [u64], start: usize, count: usize, p: usize, id: u64)
    requires { (p ≤ count) × (start + count + 1 ≤ length seen.old) }
    ensures { seen.new ≡ put_words seen.old start (placed_at p id (ids_of seen.old start count)) }
{
    let at = start + p;
    table_shift::move_up_by::<1>(seen, at, start + count);
    seen[at] = id;
}

// One id more in a part, at its place.
fn insert_in(seen: &mut [u64], start: usize, count: usize, id: u64)
    requires { start + count + 1 ≤ length seen.old }
    ensures { seen.new ≡ put_words seen.old start (placed_in id (ids_of seen.old start count)) }
{
    let p = find(&seen[start..start + count], id);
    insert_at(seen, start, count, p, id);
}

// Is i below k, and then the id at place p below id?
fn below(seen: &[u64], i: usize, k: usize, p: usize, id: u64) -> bool
    requires { i < k → p < length seen.now }
    ensures { result ≡ (ltb i k && ltb (get_or seen.now p 0) id) }
{
    if i < k {
        return seen[p] < id;
    }
    false
}

// The n newer ids go among the k older ones, which stand n places up from the front. By hand: of two indices each turn moves one.
// `n` stands beside `new`, as it says too where in `ws` the older ones are.
fn merge(ws: &mut [u64], k: usize, n: usize, new: &[u64])
    requires { (k + n ≤ length ws.old) × (n ≤ length new.now) }
    ensures { ws.new ≡ merged (take k (drop n ws.old)) (take n new.now) ++ drop (k + n) ws.old }
{
    let mut i: usize = 0;
    let mut j: usize = 0;
    while j < n {
        if below(ws, i, k, n + i, new[j]) {
            ws[i + j] = ws[n + i];
            i += 1;
        } else {
            ws[i + j] = new[j];
            j += 1;
        }
    }
}

// The n newer ids behind the first k go among them.
fn settle(ws: &mut [u64], k: usize, n: usize)
    requires { (n ≤ newest) × (k + n ≤ length ws.old) }
    ensures { ws.new ≡ merged (take k ws.old) (take n (drop k ws.old)) ++ drop (k + n) ws.old }
{
    let mut new = [0u64; NEWEST];
    new[..n].copy_from_slice(&ws[k..k + n]);
    table_shift::move_up(ws, 0, k, n);
    merge(ws, k, n, &new);
}

// The k older and n newer ids from `start` on, merged.
fn settle_at(seen: &mut [u64], start: usize, k: usize, n: usize)
    requires { (n ≤ newest) × (start + (k + n) ≤ length seen.old) }
    ensures { seen.new ≡ put_words seen.old start (merged (ids_of seen.old start k) (ids_of seen.old (start + k) n)) }
{
    settle(&mut seen[start..], k, n);
}

// A till's ids, the first count words, all of them rising.
// `count` stands beside `ws`, no plainer as a slice: the one caller's clause is of the whole output that C lends, and would put together again what this one says.
pub fn list(ws: &mut [u64], count: usize)
    requires { count ≤ length ws.old }
    ensures { ws.new ≡ listed (take count ws.old) ++ drop count ws.old }
{
    let n = count % NEWEST;
    settle(ws, count - n, n);
}

// One id more.
pub fn insert(seen: &mut [u64], start: usize, count: usize, id: u64)
    requires { start + count + 1 ≤ length seen.old }
    ensures { seen.new ≡ put_words seen.old start (placed id (ids_of seen.old start count)) }
{
    let n = count % NEWEST;
    let k = count - n;
    insert_in(seen, start + k, n, id);
    if n + 1 == NEWEST {
        settle_at(seen, start, k, NEWEST);
    }
}

// One id less in a part, if it stands there; those behind it move down. How many are left.
fn remove_in(seen: &mut [u64], start: usize, count: usize, id: u64) -> usize
    requires { start + count ≤ length seen.old }
    ensures left { result ≡ length (removed_in id (ids_of seen.old start count)) }
    ensures table { seen.new ≡ put_words seen.old start (removed_in id (ids_of seen.old start count)) }
{
    let p = find(&seen[start..start + count], id);
    if count <= p {
        return count;
    }
    let at = start + p;
    if seen[at] != id {
        return count;
    }
    table_shift::move_down(seen, at + 1, start + count, 1);
    count - 1
}

// The older ids, one short, take in the first of the n newer ones, which stand behind the free place.
fn refill(seen: &mut [u64], start: usize, left: usize, n: usize)
    requires { start + left + 1 + n ≤ length seen.old }
    ensures { seen.new ≡ put_words seen.old start (refilled (ids_of seen.old start left) (ids_of seen.old (start + left + 1) n)) }
{
    if n == 0 {
        return;
    }
    let first = start + left + 1;
    let id = seen[first];
    insert_in(seen, start, left, id);
    table_shift::move_down(seen, first + 1, first + n, 1);
}

// One id less, if it stands there. How many are left.
pub fn remove(seen: &mut [u64], start: usize, count: usize, id: u64) -> usize
    requires { start + count ≤ length seen.old }
    ensures left { result ≡ length (removed id (ids_of seen.old start count)) }
    ensures table { seen.new ≡ put_words seen.old start (removed id (ids_of seen.old start count)) }
{
    let n = count % NEWEST;
    let k = count - n;
    if has_in(&seen[start..start + k], id) {
        let left = remove_in(seen, start, k, id);
        refill(seen, start, left, n);
        return left + n;
    }
    let left = remove_in(seen, start + k, n, id);
    k + left
}
