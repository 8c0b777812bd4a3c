// Flush and drain as lines of a script: the call is made on the lent tables, and its answer written.
#![tactic(auto)]

ghost use Rattle.std.specs.Prelude.{◌≡◌};
ghost use Rattle.sim_outcome.specs.declared.Outcome.TheVariants.{Done};
ghost use Rattle.sim_flush.specs.Flushing.{flushed_of, IsFlush, IsDrain};

use ask_tables::cell;
use call_flush_pass::Moved;
use call_log::Emptied;
use sim_figures::Said;
use sim_lend::{Network, part, rows};
use sim_outcome::{Outcome, refused};
use sim_printer::Printer;
use sim_script::Flush;

// How many of the waiting copies are due.
fn due_in(waiting: &[u64], n: u64, at: u64) -> u64 {
    if ((waiting.len() / table_waiting::WIDTH) as u64) < n {
        return 0;
    }
    table_waiting::due(waiting, n as usize, at) as u64
}

// The copies that are due, kept for the answer.
fn keep_due<'a>(due: &'a mut [u64], net: &[u64], waiting: &[u64], at: u64) -> &'a [u64] {
    let n = due_in(waiting, cell(net, ask_tables::WAITING), at);
    let kept = sim_lend::copied(due, rows(waiting, table_waiting::WIDTH, n));
    part(due, kept)
}

// What a flush answered: its counts, and what became of each due copy.
fn flushed(page: &mut Printer, moved: Moved, due: &[u64], out: &[u64]) -> Outcome
    ensures { result ≡ flushed_of moved due.now }
{
    let said = Said {
        rows: moved.rows as u64,
        delivered: moved.delivered as u64,
        dropped: moved.dropped as u64,
    };
    page.labelled(b"flush delivered=", said.delivered);
    page.labelled(b" dropped=", said.dropped);
    page.ended(b" rows=", said.rows);
    sim_answers::flushed(page, due, rows(out, call_flush_pass::ROW, said.rows));
    Outcome::Flushed {
        said,
        due: (due.len() / table_waiting::WIDTH) as u64,
    }
}

// Words of so many rows; more than the slots serve no copy.
fn room(rows: u64) -> usize {
    rows.min(ask_tables::MOST_SLOTS) as usize * call_flush_pass::ROW
}

// A flush, with room for all slots' rows or for as many as its line says; the copies that were due stand in `due` for the answer.
pub fn flush(network: Network<'_>, flush: Flush, due: &mut [u64], page: &mut Printer) -> Outcome
    ensures { IsFlush result }
{
    let Network {
        setup,
        net,
        tills,
        seen,
        waiting,
        blocks,
        log,
        out,
        ..
    } = network;
    let due = keep_due(due, net, waiting, flush.at);
    let rows = flush.rows.unwrap_or(ask_tables::MOST_SLOTS);
    let lent = sim_lend::front(out, room(rows));
    let answer = call_flush::flush(
        setup, net, tills, seen, waiting, blocks, log, lent, flush.at,
    );
    match answer {
        Ok(moved) => flushed(page, moved, due, out),
        Err(refusal) => refused(page, b"flush", refusal),
    }
}

// Deliveries and bytes of every class, with commas between.
fn tally_list(page: &mut Printer, tallies: &[u64; call_log::TALLY_CELLS]) {
    for (i, tally) in tallies.chunks_exact(2).enumerate() {
        let comma = if i == 0 { "" } else { "," };
        page.labelled(comma.as_bytes(), cell(tally, 0));
        page.labelled(b":", cell(tally, 1));
    }
}

// What a drain answered: its counts, the tallies, the records.
fn drained(page: &mut Printer, emptied: Emptied, out: &[u64]) -> Outcome
    ensures { result ≡ Done }
{
    let records = emptied.records;
    page.labelled(b"drain records=", records);
    page.labelled(b" dropped=", emptied.forced);
    page.text(b" tallies=");
    tally_list(page, &emptied.tallies);
    page.text(b"\n");
    sim_answers::records(page, rows(out, table_delivery::WIDTH, records));
    Outcome::Done
}

// Takes the log's records.
pub fn drain(network: Network<'_>, page: &mut Printer) -> Outcome
    ensures { IsDrain result }
{
    let Network {
        setup,
        log,
        out,
        ..
    } = network;
    match call_log::drain(setup, log, out) {
        Ok(emptied) => drained(page, emptied, out),
        Err(refusal) => refused(page, b"drain", refusal),
    }
}
