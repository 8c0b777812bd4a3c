// Copies, rows and records, field by field.
use crate::plain::id;
use sim_printer::Printer;
use table_delivery::Delivery;
use table_rows::Row;
use table_waiting::Copy;

// A row of a flush has two words more than its copy, for the handlers: by number, as call_flush_pass gives it as words and has no Row of it.
const GOSSIP: usize = table_waiting::WIDTH;

const HOST: usize = table_waiting::WIDTH + 1;

// A space, and a shard or `-` for global.
pub fn scope(page: &mut Printer, scope: u64) {
    if scope == ask_tables::GLOBAL {
        page.text(b" -");
        return;
    }
    page.labelled(b" ", scope);
}

// The eight fields of a delivery, a space before each.
fn eight(page: &mut Printer, delivery: Delivery) {
    let Delivery {
        from,
        to,
        kind,
        class,
        sent,
        time,
        wire,
        ..
    } = delivery;
    for n in [from, to, kind, class, sent, time] {
        page.labelled(b" ", n);
    }
    scope(page, delivery.scope);
    page.labelled(b" ", wire);
}

// A space, and the id of an original or `-`.
fn identity(page: &mut Printer, copy: Copy) {
    if copy.original == 0 {
        page.text(b" -");
        return;
    }
    id(page, copy.id);
}

// The eleven fields of a copy.
fn eleven(page: &mut Printer, copy: Copy) {
    eight(page, copy.delivery);
    page.labelled(b" ", copy.sequence);
    identity(page, copy);
    page.labelled(b" ", copy.tag);
}

// Waiting copies, a line each.
pub fn copies(page: &mut Printer, rows: &[u64]) {
    let (rows, _) = rows.as_chunks::<{ table_waiting::WIDTH }>();
    for row in rows {
        page.text(b"copy");
        eleven(page, Copy::get(row, 0));
        page.text(b"\n");
    }
}

// Records of the log, a line each. Not one function with `copies`: it would take the width, the Row and the fields of a line as parameters for five lines.
pub fn records(page: &mut Printer, rows: &[u64]) {
    let (rows, _) = rows.as_chunks::<{ table_delivery::WIDTH }>();
    for row in rows {
        page.text(b"record");
        eight(page, Delivery::get(row, 0));
        page.text(b"\n");
    }
}

// The words of a flush's row.
type FlushRow = [u64; call_flush_pass::ROW];

// The handlers that take a row.
fn takers(row: &FlushRow) -> &'static str {
    match (row[GOSSIP], row[HOST]) {
        (0, 0) => "-",
        (0, _) => "h",
        (_, 0) => "g",
        _ => "gh",
    }
}

// A row that was handed out, with its takers.
fn row_line(page: &mut Printer, row: &FlushRow) {
    page.text(b"row");
    eleven(page, Copy::get(row, 0));
    page.text(b" ");
    page.text(takers(row).as_bytes());
    page.text(b"\n");
}

// A copy that was dropped.
fn drop_line(page: &mut Printer, copy: Copy) {
    page.text(b"drop");
    eleven(page, copy);
    page.text(b"\n");
}

// The due copies in flush order; the rows stand in `out`, in that order too. A copy without a row was dropped.
pub fn flushed(page: &mut Printer, due: &[u64], out: &[u64]) {
    let mut rows = out;
    let (due, _) = due.as_chunks::<{ table_waiting::WIDTH }>();
    for copy in due {
        match rows.split_first_chunk::<{ call_flush_pass::ROW }>() {
            Some((row, rest)) if row.starts_with(copy) => {
                row_line(page, row);
                rows = rest;
            }
            _ => drop_line(page, Copy::get(copy, 0)),
        }
    }
}
