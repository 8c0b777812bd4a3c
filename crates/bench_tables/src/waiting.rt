// Waiting copies: insertion, the due ones, their removal, and question 1's pass. C lends a whole table, and beside it how many of its rows are in use.
ghost use Rattle.std.specs.Prelude.{◌≡◌, [], ◌∷◌};
ghost use Rattle.table_waiting.specs.Waiting as waiting;
ghost use Rattle.bench_tables.specs.Answers.{left, has_rows, insert_fits, insert_of, due_of, drop_fits, drop_of, copies_of};

use crate::{Told, unfit, valued, yes_or_no};
use table_rows::Row;
use table_scan::Limits;

// Are there n copies?
fn copies_fit(ws: &[u64], n: usize) -> bool
    ensures { result ≡ has_rows waiting.width ws.now n }
{
    n <= ws.len() / table_waiting::WIDTH
}

// Is there a whole row, and room for it behind n copies?
#[tactic(auto, unfolding(crate::specs::Answers::insert_fits))]
fn insert_fits(ws: &[u64], n: usize, row: &[u64]) -> bool
    ensures { result ≡ insert_fits ws.now n row.now }
{
    table_waiting::WIDTH <= row.len() && n < ws.len() / table_waiting::WIDTH
}

// Are there n copies, and k among them?
#[tactic(auto, unfolding(crate::specs::Answers::drop_fits))]
fn drop_fits(ws: &[u64], n: usize, k: usize) -> bool
    ensures { result ≡ drop_fits ws.now n k }
{
    copies_fit(ws, n) && k <= n
}

// A waiting copy, lent as a row, goes to its place among n.
#[unsafe(no_mangle)]
pub extern "C" fn tables_waiting_insert(ws: &mut [u64], n: usize, row: &[u64]) -> Told
    ensures { left result (ws.new ∷ []) ≡ insert_of ws.old n row.now }
{
    if !insert_fits(ws, n, row) {
        return unfit();
    }
    let c = table_waiting::Copy::get(row, 0);
    table_waiting::insert(ws, n, c);
    valued(0)
}

// How many of n copies are due.
#[unsafe(no_mangle)]
pub extern "C" fn tables_waiting_due(ws: &[u64], n: usize, until: u64) -> Told
    ensures { result ≡ due_of ws.now n until }
{
    if !copies_fit(ws, n) {
        return unfit();
    }
    valued(table_waiting::due(ws, n, until) as u64)
}

// The first k of n copies go.
#[unsafe(no_mangle)]
pub extern "C" fn tables_waiting_drop(ws: &mut [u64], n: usize, k: usize) -> Told
    ensures { left result (ws.new ∷ []) ≡ drop_of ws.old n k }
{
    if !drop_fits(ws, n, k) {
        return unfit();
    }
    table_waiting::drop_front(ws, n, k);
    valued(0)
}

// Are n waiting copies in range?
#[unsafe(no_mangle)]
pub extern "C" fn tables_copies_near(
    ws: &[u64],
    n: usize,
    hosts: u64,
    kinds: u64,
    classes: u64,
) -> Told
    ensures { result ≡ copies_of ws.now n (record { hosts = hosts; kinds = kinds; classes = classes; wire = 0 }) }
{
    if !copies_fit(ws, n) {
        return unfit();
    }
    let l = Limits {
        hosts,
        kinds,
        classes,
        wire: 0,
    };
    yes_or_no(table_scan::copies_near(ws, n, l))
}
