// The figures of an audit, printed in two columns: recorded, and by the book; a mark stands behind two that differ.
#![tactic(auto)]

ghost use Rattle.std.specs.Prelude.{◌<◌};

use sim_audit_figures::Figures;
use sim_audit_figures::side::{CLASSES, Side, TILLS, Till};
use sim_figures::{Five, Kinds, Tally};
use sim_printer::Printer;
use sim_sheet::label;

// Columns: of a label, of a figure, of a number in a label.
const LABEL: usize = 20;

const FIGURE: usize = 13;

const NUMBER: usize = 3;

// The two figures, and a mark where they differ.
fn both(page: &mut Printer, recorded: u64, book: u64) {
    page.decimal_right(recorded, FIGURE);
    page.decimal_right(book, FIGURE);
    if recorded != book {
        page.text(b" !");
    }
    page.text(b"\n");
}

// A line: a label and the two figures.
fn line(page: &mut Printer, what: &[u8], recorded: u64, book: u64) {
    label(page, what, LABEL);
    both(page, recorded, book);
}

// A line whose label has a number, where one of its figures is not 0.
fn numbered(page: &mut Printer, what: &[u8], n: u64, rest: &[u8], recorded: u64, book: u64) {
    if recorded != 0 || book != 0 {
        page.text(what);
        page.decimal_right(n, NUMBER);
        page.text(rest);
        page.spaces(
            (LABEL - NUMBER)
                .saturating_sub(what.len())
                .saturating_sub(rest.len()),
        );
        both(page, recorded, book);
    }
}

// Originals and echoes.
fn copies(page: &mut Printer, originals: &[u8], echoes: &[u8], recorded: Kinds, book: Kinds) {
    line(page, originals, recorded.originals, book.originals);
    line(page, echoes, recorded.echoes, book.echoes);
}

// Recipients, by accept's own counts.
fn recipients(page: &mut Printer, recorded: Five, book: Five) {
    line(page, b"sent", recorded.sent, book.sent);
    line(
        page,
        b"deduplicated",
        recorded.deduplicated,
        book.deduplicated,
    );
    line(page, b"partition", recorded.partition, book.partition);
    line(page, b"loss", recorded.loss, book.loss);
    line(page, b"fault rule", recorded.fault, book.fault);
}

// Recipients and marks.
fn messages(page: &mut Printer, recorded: &Side, book: &Side) {
    page.text(
        b"\n                         recorded  by the book\nA. RECIPIENTS, BY ACCEPT'S ANSWERS\n",
    );
    recipients(page, recorded.recipients, book.recipients);
    line(
        page,
        b"to their own sender",
        recorded.to_sender,
        book.to_sender,
    );
    page.text(b"B. SEEN MARKS, AS READ\n");
    line(page, b"marks", recorded.marks, book.marks);
}

// A link, where a flush dropped a copy of it.
fn link(page: &mut Printer, from: u64, to: u64, recorded: u64, book: u64) {
    if recorded != 0 || book != 0 {
        page.text(b"from");
        page.decimal_right(from, NUMBER);
        page.text(b" to");
        page.decimal_right(to, NUMBER);
        page.spaces(LABEL - 7 - 2 * NUMBER);
        both(page, recorded, book);
    }
}

// The links from a till.
fn links(page: &mut Printer, from: usize, recorded: &Side, book: &Side)
    requires { from < TILLS }
{
    for to in 0..TILLS {
        link(
            page,
            from as u64,
            to as u64,
            recorded.links[from][to],
            book.links[from][to],
        );
    }
}

// Drops by flushes, by link.
fn drops(page: &mut Printer, recorded: &Side, book: &Side) {
    page.text(b"C. DROPS BY FLUSHES\n");
    copies(
        page,
        b"originals",
        b"echoes",
        recorded.dropped,
        book.dropped,
    );
    for from in 0..TILLS {
        links(page, from, recorded, book);
    }
}

// Copies that landed and that wait, and what flushes said themselves.
fn landed(page: &mut Printer, recorded: &Side, book: &Side) {
    page.text(b"D. COPIES\n");
    copies(
        page,
        b"originals landed",
        b"echoes landed",
        recorded.landed,
        book.landed,
    );
    copies(
        page,
        b"originals as waiting",
        b"echoes as waiting",
        recorded.waiting,
        book.waiting,
    );
    line(page, b"in transit, as read", recorded.transit, book.transit);
    line(
        page,
        b"delivered, as said",
        recorded.said.delivered,
        book.said.delivered,
    );
    line(
        page,
        b"dropped, as said",
        recorded.said.dropped,
        book.said.dropped,
    );
    line(page, b"rows, as said", recorded.said.rows, book.said.rows);
}

// What a class had, by the rows or by the tallies of the log.
fn class(page: &mut Printer, what: &[u8], k: u64, count: &[u8], recorded: Tally, book: Tally) {
    numbered(page, what, k, count, recorded.deliveries, book.deliveries);
    numbered(page, what, k, b" bytes", recorded.bytes, book.bytes);
}

// The order of rows, and every class.
fn order(page: &mut Printer, recorded: &Side, book: &Side) {
    page.text(b"E. DELIVERY ORDER AND CLASS TALLIES\n");
    line(page, b"rows out of order", recorded.late, book.late);
    line(page, b"due a flush before", recorded.put_off, book.put_off);
    for k in 0..CLASSES {
        class(
            page,
            b"class",
            k as u64,
            b" rows",
            recorded.classes[k],
            book.classes[k],
        );
        class(
            page,
            b"tally",
            k as u64,
            b" deliveries",
            recorded.tallies[k],
            book.tallies[k],
        );
    }
}

// A till as a sender: what became of its messages' recipients.
fn sender(page: &mut Printer, t: u64, recorded: Five, book: Five) {
    numbered(page, b"till", t, b" sent", recorded.sent, book.sent);
    numbered(
        page,
        b"till",
        t,
        b" deduplicated",
        recorded.deduplicated,
        book.deduplicated,
    );
    numbered(
        page,
        b"till",
        t,
        b" partition",
        recorded.partition,
        book.partition,
    );
    numbered(page, b"till", t, b" loss", recorded.loss, book.loss);
    numbered(page, b"till", t, b" fault rule", recorded.fault, book.fault);
}

// A till's slip: as a sender, and from the rows and drops as a receiver.
fn slip(page: &mut Printer, t: u64, recorded: &Till, book: &Till) {
    sender(page, t, recorded.recipients, book.recipients);
    numbered(
        page,
        b"till",
        t,
        b" received",
        recorded.received.originals,
        book.received.originals,
    );
    numbered(
        page,
        b"till",
        t,
        b" had echoes",
        recorded.received.echoes,
        book.received.echoes,
    );
    numbered(page, b"till", t, b" lost to it", recorded.lost, book.lost);
}

// Every till's slip.
fn slips(page: &mut Printer, recorded: &Side, book: &Side) {
    page.text(b"F. CLOSING SLIPS, BY TILL\n");
    for t in 0..TILLS {
        slip(page, t as u64, &recorded.tills[t], &book.tills[t]);
    }
}

// The figures of both sides.
pub fn print(page: &mut Printer, figures: &Figures) {
    let recorded = &figures.recorded;
    let book = &figures.book;
    messages(page, recorded, book);
    drops(page, recorded, book);
    landed(page, recorded, book);
    order(page, recorded, book);
    slips(page, recorded, book);
}
