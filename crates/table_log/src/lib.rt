// The delivery log in one table: count and first slot of its ring, records forced out, tallies of each class, then the records.
#![tactic(auto)]

ghost use Rattle.std.specs.Prelude.{◌≡◌, ◌+◌, ◌*◌, ◌<◌, ◌≤◌, length, if◌then◌else◌, slice_index, refl};
ghost use Rattle.table_delivery.specs.Delivery as delivery;
ghost use Rattle.table_rows.specs.Table.{over};
ghost use Rattle.table_ring.specs.Ring.{count_at};
ghost use Rattle.table_log.specs.Log.{records_at, forced_at, size_of, tally_form, tally_exact, SoundLog, sound_log, records_of, record_at, tally_at, tallied_at, noted_at, pushed, cleared_at};

use table_delivery::Delivery;
use table_rows::Row;

// Where the forced count, the tallies and the records stand; how many classes have tallies.
const FORCED: usize = 2;

const TALLIES: usize = 3;

pub const RECORDS: usize = TALLIES + CLASSES as usize * 2;

const CLASSES: u64 = 8;

// No log has more slots.
pub const MOST: usize = 4096;

// Deliveries and bytes of a class.
#[derive(Clone, Copy, Default)]
pub struct Tally {
    pub deliveries: u64,
    pub bytes: u64,
}

impl Row for Tally {
    ghost form = { tally_form };

    ghost WIDTH = { 2 };

    const WIDTH: usize = 2;

    fn get(ws: &[u64], b: usize) -> Tally {
        Tally {
            deliveries: ws[b],
            bytes: ws[b + 1],
        }
    }

    fn put(self, ws: &mut [u64], b: usize) {
        ws[b] = self.deliveries;
        ws[b + 1] = self.bytes;
    }

    ghost exact = { tally_exact };

    ghost wide = { refl };
}

// `records_at ≤ length log`, and below `size_of capacity ≤ length log`: head and records stand in one lent table; as an array of its own the head would be apart from the
// records, which `push` and `drain` write with it.
// How many records the log holds.
pub fn count(log: &[u64]) -> u64
    requires { records_at ≤ length log.now }
    ensures { result ≡ count_at 0 log.now }
{
    log[0]
}

// How many records the capacity forced out.
pub fn forced(log: &[u64]) -> u64
    requires { records_at ≤ length log.now }
    ensures { result ≡ slice_index log.now forced_at }
{
    log[FORCED]
}

// A class's tally; zeros for a class that has none.
pub fn class_tally(log: &[u64], class: u64) -> Tally
    requires { records_at ≤ length log.now }
    ensures { result ≡ tally_at log.now class }
{
    if CLASSES <= class {
        return Tally::default();
    }
    Tally::get(log, TALLIES + class as usize * Tally::WIDTH)
}

// Are the count and the first slot within the capacity?
pub fn is_sound(log: &[u64], capacity: usize) -> bool
    requires { records_at ≤ length log.now }
    ensures { result ≡ sound_log capacity log.now }
{
    if capacity == 0 {
        return log[0] == 0;
    }
    table_ring::is_sound(log, 0, capacity)
}

// One delivery more of a class, and its bytes; both wrap at 2^64.
fn add_tally(log: &mut [u64], class: u64, wire: u64)
    requires { records_at ≤ length log.old }
    ensures { log.new ≡ tallied_at log.old class wire }
{
    if CLASSES <= class {
        return;
    }
    let b = TALLIES + class as usize * Tally::WIDTH;
    let t = Tally::get(log, b);
    let more = Tally {
        deliveries: t.deliveries.wrapping_add(1),
        bytes: t.bytes.wrapping_add(wire),
    };
    more.put(log, b);
}

// One record more is forced out where all slots are taken.
fn note_forced(log: &mut [u64], capacity: usize)
    requires { records_at ≤ length log.old }
    ensures { log.new ≡ noted_at capacity log.old }
{
    let count = log[0] as usize;
    if count < capacity {
        return;
    }
    log[FORCED] = log[FORCED].wrapping_add(1);
}

// A delivery logged. In a log of capacity 0 no slot is in range: it keeps neither records nor tallies.
pub fn push(log: &mut [u64], capacity: usize, d: Delivery)
    requires { size_of capacity ≤ length log.old }
    ensures { log.new ≡ pushed capacity log.old d }
{
    if !table_ring::is_sound(log, 0, capacity) {
        return;
    }
    add_tally(log, d.class, d.wire);
    note_forced(log, capacity);
    let p = table_ring::next(log, 0, capacity);
    d.put(log, RECORDS + p.slot * table_delivery::WIDTH);
    table_ring::set_head(log, 0, p.count as u64, p.first as u64);
}

// The counts, the first slot and the tallies at 0.
fn clear(log: &mut [u64])
    requires { records_at ≤ length log.old }
    ensures { log.new ≡ cleared_at log.old }
{
    log[..RECORDS].fill(0);
}

// `SoundLog`, here and below: the head is in range, as `is_sound` answers of it. A type for it would be made of the lent log at each call, and ask the same there, no plainer.
// The k-th oldest record.
pub fn oldest(log: &[u64], capacity: usize, k: usize) -> Delivery
    requires { (size_of capacity ≤ length log.now) × (SoundLog capacity log.now) × (k < count_at 0 log.now) }
    ensures { result ≡ record_at capacity log.now k }
{
    let first = log[1] as usize;
    let s = table_ring::slot(capacity, first, k);
    Delivery::get(log, RECORDS + s * table_delivery::WIDTH)
}

// The records, oldest first, to the front of out.
fn copy_out(log: &[u64], capacity: usize, out: &mut [u64])
    requires { (size_of capacity ≤ length log.now) × (capacity * delivery.width ≤ length out.old) × (SoundLog capacity log.now) }
    ensures { out.new ≡ over delivery.form (records_of capacity log.now) out.old }
{
    let count = log[0] as usize;
    for i in 0..count {
        let d = oldest(log, capacity, i);
        d.put(out, i * table_delivery::WIDTH);
    }
}

// The records, oldest first, to the front of out, and how many; then the log is empty. Nothing where the head is not in range.
pub fn drain(log: &mut [u64], capacity: usize, out: &mut [u64]) -> u64
    requires { (size_of capacity ≤ length log.old) × (capacity * delivery.width ≤ length out.old) }
    ensures many { result ≡ (if sound_log capacity log.old then count_at 0 log.old else 0) }
    ensures copied { out.new ≡ (if sound_log capacity log.old then over delivery.form (records_of capacity log.old) out.old else out.old) }
    ensures emptied { log.new ≡ (if sound_log capacity log.old then cleared_at log.old else log.old) }
{
    if !is_sound(log, capacity) {
        return 0;
    }
    let many = log[0];
    copy_out(log, capacity, out);
    clear(log);
    many
}
