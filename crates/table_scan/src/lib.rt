// Question 1's range tests: one pass over the rows in use of waiting, rings and log, and over a column of counts.
#![tactic(auto)]

ghost use Rattle.std.specs.Prelude.{◌≡◌, ◌+◌, ◌*◌, ◌≤◌, length, drop};
ghost use Rattle.table_rows.specs.Rows.{all_of};
ghost use Rattle.table_rows.specs.Table.{rows_of};
ghost use Rattle.table_delivery.specs.Delivery as delivery;
ghost use Rattle.table_waiting.specs.Waiting.{width};
ghost use Rattle.table_rings.specs.Rings.{head_width, span, Fits, SoundRing, entries};
ghost use Rattle.table_log.specs.Log.{size_of, SoundLog, records_of};
ghost use Rattle.table_scan.specs.Scan.{near, near_entry, copies_near, log_near, ring_near, rings_near, column_within};

use table_delivery::Delivery;
use table_rings::Entry;
use table_waiting::Copy;

// The opening's numbers: tills, types, classes; the longest wire.
#[derive(Clone, Copy)]
pub struct Limits {
    pub hosts: u64,
    pub kinds: u64,
    pub classes: u64,
    pub wire: u64,
}

impl Limits {
    // Are a delivery's hosts, type and class in range?
    #[tactic(auto, unfolding(crate::specs::Scan::near))]
    fn admits(self, d: Delivery) -> bool
        ensures { result ≡ near self d }
    {
        d.from < self.hosts && d.to < self.hosts && d.kind < self.kinds && d.class < self.classes
    }

    // Are a carried message's class and wire length in range?
    #[tactic(auto, unfolding(crate::specs::Scan::near_entry))]
    fn admits_entry(self, e: Entry) -> bool
        ensures { result ≡ near_entry self e }
    {
        e.class < self.classes && e.wire <= self.wire
    }
}

// `n * width ≤ length ws`: how many rows of a lent table are in use; callers have the count and the table, and no slice of the rows.
// Are the first n waiting copies in range?
#[tactic(auto, unfolding(crate::specs::Scan::copies_near))]
pub fn copies_near(ws: &[u64], n: usize, l: Limits) -> bool
    requires { n * width ≤ length ws.now }
    ensures { result ≡ copies_near l ws.now n }
{
    table_rows::all(ws, n, |c: Copy| l.admits(c.delivery))
}

// Are the n deliveries from word `at` on in range?
fn run_near(ws: &[u64], at: usize, n: usize, l: Limits) -> bool
    requires { at + n * delivery.width ≤ length ws.now }
    ensures { result ≡ all_of (near l) (rows_of delivery.form (drop at ws.now) n) }
{
    table_rows::all(&ws[at..], n, |d: Delivery| l.admits(d))
}

// `size_of capacity ≤ length ws`, `SoundLog`, here and below, are table_log's own: the log is lent anew at each call, so a type for them would ask both again where it is made, no plainer.
// Are the records of a log in range? They stand in one run, or in two: from the first slot to the last, then from slot 0 on.
fn records_near(ws: &[u64], capacity: usize, l: Limits) -> bool
    requires { (size_of capacity ≤ length ws.now) × (SoundLog capacity ws.now) }
    ensures { result ≡ all_of (near l) (records_of capacity ws.now) }
{
    let count = ws[0] as usize;
    if count == 0 {
        return true;
    }
    let first = ws[1] as usize;
    let ahead = capacity - first;
    let start = table_log::RECORDS + first * table_delivery::WIDTH;
    if count <= ahead {
        return run_near(ws, start, count, l);
    }
    run_near(ws, start, ahead, l) && run_near(ws, table_log::RECORDS, count - ahead, l)
}

// Are a log's count, first slot and records in range?
pub fn log_near(ws: &[u64], capacity: usize, l: Limits) -> bool
    requires { size_of capacity ≤ length ws.now }
    ensures { result ≡ log_near l capacity ws.now }
{
    table_log::is_sound(ws, capacity) && records_near(ws, capacity, l)
}

// `Fits rings r ws`, here and below, is table_rings' own: ring r's head and entries stand in the lent table.
// Are ring r's entries in range?
fn entries_near(ws: &[u64], rings: usize, r: usize, l: Limits) -> bool
    requires { (Fits rings r ws.now) × (SoundRing ws.now r) }
    ensures { result ≡ all_of (near_entry l) (entries rings ws.now r) }
{
    let count = table_rings::count(ws, rings, r) as usize;
    for k in 0..count {
        let e = table_rings::get(ws, rings, r, k);
        if !l.admits_entry(e) {
            return false;
        }
    }
    true
}

// Are ring r's count, first slot and entries in range?
fn ring_near(ws: &[u64], rings: usize, r: usize, l: Limits) -> bool
    requires { Fits rings r ws.now }
    ensures { result ≡ ring_near l rings ws.now r }
{
    table_rings::is_sound(ws, rings, r) && entries_near(ws, rings, r, l)
}

// Are all rings in range?
pub fn rings_near(ws: &[u64], rings: usize, l: Limits) -> bool
    requires { rings * (head_width + span) ≤ length ws.now }
    ensures { result ≡ rings_near l rings ws.now }
{
    for r in 0..rings {
        if !ring_near(ws, rings, r, l) {
            return false;
        }
    }
    true
}

// Is each of n words, `stride` apart from `start` on, at most `limit`?
pub fn column_within(ws: &[u64], start: usize, stride: usize, n: usize, limit: u64) -> bool
    requires { (1 ≤ stride) × (start + n * stride ≤ length ws.now) }
    ensures { result ≡ column_within ws.now start stride n limit }
{
    for i in 0..n {
        if ws[start + i * stride] > limit {
            return false;
        }
    }
    true
}
