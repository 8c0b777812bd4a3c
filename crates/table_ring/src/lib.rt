// A ring of slots in a table: its count and its first slot stand at h and h + 1, the oldest entry in the first slot, the others behind it, round the end.
#![tactic(auto)]

ghost use Rattle.std.specs.Prelude.{◌≡◌, [], ◌∷◌, ◌+◌, ◌^◌, ◌≤◌, ◌<◌, length};
ghost use Rattle.table_shift.specs.Shift.{put_words};
ghost use Rattle.table_ring.specs.Ring.{slot_of, push_slot, count_at, first_at, sound_at, Sound};

// Where one entry more goes, and the ring's count and first slot after it.
#[derive(Clone, Copy)]
pub struct Push {
    pub slot: usize,
    pub count: usize,
    pub first: usize,
}

// The slot of the k-th oldest entry.
// `capacity < 2 ^ 63`, here and below: so the sum is a word. By `k < capacity - first` nothing is asked, but a record of a log takes 10.7 ns in place of 8.7.
pub fn slot(capacity: usize, first: usize, k: usize) -> usize
    requires { (first < capacity) × (k ≤ capacity) × (capacity < 2 ^ 63) }
    ensures is { result ≡ slot_of capacity first k }
    ensures within { result < capacity }
{
    let at = first + k;
    if at < capacity {
        return at;
    }
    at - capacity
}

// One entry more: behind the others, or in place of the oldest where all slots are taken.
pub fn push_slot(capacity: usize, count: usize, first: usize) -> Push
    requires { (count ≤ capacity) × (first < capacity) × (capacity < 2 ^ 63) }
    ensures is { result ≡ push_slot capacity count first }
    ensures within { (result.slot < capacity) × (result.count ≤ capacity) × (result.first < capacity) }
{
    if count < capacity {
        let s = slot(capacity, first, count);
        return Push {
            slot: s,
            count: count + 1,
            first: first,
        };
    }
    let f = slot(capacity, first, 1);
    Push {
        slot: first,
        count: count,
        first: f,
    }
}

// A ring's head stays two words at h: as a Row it would be a type and an impl of 30 lines for three reads and one write.
// Are the count and the first slot at h within the capacity?
pub fn is_sound(ws: &[u64], h: usize, capacity: usize) -> bool
    requires { h + 2 ≤ length ws.now }
    ensures { result ≡ sound_at capacity h ws.now }
{
    ws[h] as usize <= capacity && (ws[h + 1] as usize) < capacity
}

// Where one entry more of the ring at h goes.
pub fn next(ws: &[u64], h: usize, capacity: usize) -> Push
    requires { (h + 2 ≤ length ws.now) × (capacity < 2 ^ 63) × (Sound capacity h ws.now) }
    ensures is { result ≡ push_slot capacity (count_at h ws.now) (first_at h ws.now) }
    ensures within { (result.slot < capacity) × (result.count ≤ capacity) × (result.first < capacity) }
{
    let count = ws[h] as usize;
    let first = ws[h + 1] as usize;
    push_slot(capacity, count, first)
}

// The count and the first slot at h anew.
pub fn set_head(ws: &mut [u64], h: usize, count: u64, first: u64)
    requires { h + 2 ≤ length ws.old }
    ensures { ws.new ≡ put_words ws.old h (count ∷ first ∷ []) }
{
    ws[h] = count;
    ws[h + 1] = first;
}
