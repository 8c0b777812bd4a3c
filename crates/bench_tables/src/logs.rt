// The delivery log: one delivery more, and the drain.
ghost use Rattle.std.specs.Prelude.{◌≡◌, [], ◌∷◌};
ghost use Rattle.bench_tables.specs.Answers.{left, log_fits, push_fits, push_of, drain_fits, drain_of};

use crate::{Told, unfit, valued};
use table_rows::Row;

// Has a log of so many slots its length, and a head in range?
#[tactic(auto, unfolding(crate::specs::Answers::log_fits))]
fn log_fits(log: &[u64], capacity: usize) -> bool
    ensures { result ≡ log_fits log.now capacity }
{
    capacity <= table_log::MOST
        && table_log::RECORDS + capacity * table_delivery::WIDTH <= log.len()
        && table_log::is_sound(log, capacity)
}

// Is there a whole row, and the log?
#[tactic(auto, unfolding(crate::specs::Answers::push_fits))]
fn push_fits(log: &[u64], capacity: usize, row: &[u64]) -> bool
    ensures { result ≡ push_fits log.now capacity row.now }
{
    table_delivery::WIDTH <= row.len() && log_fits(log, capacity)
}

// Is there the log, and room for as many records as it has slots?
#[tactic(auto, unfolding(crate::specs::Answers::drain_fits))]
fn drain_fits(log: &[u64], capacity: usize, out: &[u64]) -> bool
    ensures { result ≡ drain_fits log.now capacity out.now }
{
    log_fits(log, capacity) && capacity * table_delivery::WIDTH <= out.len()
}

// A delivery, lent as a row, is logged.
#[unsafe(no_mangle)]
pub extern "C" fn tables_log_push(log: &mut [u64], capacity: usize, row: &[u64]) -> Told
    ensures { left result (log.new ∷ []) ≡ push_of log.old capacity row.now }
{
    if !push_fits(log, capacity, row) {
        return unfit();
    }
    let d = table_delivery::Delivery::get(row, 0);
    table_log::push(log, capacity, d);
    valued(0)
}

// The log's records to out, and how many; then the log is empty.
#[unsafe(no_mangle)]
pub extern "C" fn tables_log_drain(log: &mut [u64], capacity: usize, out: &mut [u64]) -> Told
    ensures { left result (log.new ∷ out.new ∷ []) ≡ drain_of log.old capacity out.old }
{
    if !drain_fits(log, capacity, out) {
        return unfit();
    }
    valued(table_log::drain(log, capacity, out))
}
