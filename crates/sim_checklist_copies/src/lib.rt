// Parts D and E of the checklist, and the closing slips, printed: copies, the order of deliveries, class tallies.
#![tactic(auto)]

mod slips;

ghost use Rattle.std.specs.Prelude.{◌≡◌};
ghost use Rattle.sim_sheet.specs.Sheet.{Prints};
ghost use Rattle.sim_checklist_copies.specs.Copies as is;

use sim_comparison::{Column, Counted, Pair};
use sim_figures::{Figures, Kinds};
use sim_printer::Printer;
use sim_sheet::{WIDE, compared, label, right, say, three, verdict, verdict_in};

// Originals, echoes and all of these.
fn kinds(page: &mut Printer, what: &[u8], kinds: Kinds)
    ensures { Prints (is.kinds_of what.now kinds) page.old page.new }
{
    let all = kinds.originals.wrapping_add(kinds.echoes);
    three(page, what, kinds.originals, kinds.echoes, all);
}

// Part D, its columns.
fn columns(figures: &Figures, page: &mut Printer)
    ensures { Prints (is.columns_part figures.now) page.old page.new }
{
    say(page, b"\nD. COPIES: WAITING, LANDED, DROPPED BY A FLUSH\n");
    say(page, b"               originals      echoes         all\n");
    let o = sim_comparison::originals(figures);
    let e = sim_comparison::echoes(figures);
    let all = sim_comparison::copies(figures);
    kinds(page, b"waiting", figures.waiting);
    kinds(page, b"landed", figures.landed);
    kinds(page, b"dropped", figures.dropped);
    three(page, b"= together", o.left, e.left, all.left);
    three(page, b"= scheduled", o.right, e.right, all.right);
    label(page, b"", 12);
    verdict_in(page, o.agrees(), 12);
    verdict_in(page, e.agrees(), 12);
    verdict_in(page, all.agrees(), 12);
    say(page, b"\nscheduled: originals as sent, all by the\n");
    say(page, b"sequences given, echoes what is left\n");
}

// Part D.
pub fn copies(figures: &Figures, page: &mut Printer)
    ensures { Prints (is.copies_part figures.now) page.old page.new }
{
    columns(figures, page);
    compared(
        page,
        sim_comparison::by_tills(figures, Column::Transit),
        b"= in transit, all slips",
        b"= originals that wait",
    );
}

// Part E, without the log's part.
pub fn order(figures: &Figures, page: &mut Printer)
    ensures { Prints (is.order_part figures.now) page.old page.new }
{
    say(page, b"\nE. DELIVERY ORDER AND CLASS TALLIES\n");
    compared(
        page,
        sim_comparison::rows(figures),
        b"= rows",
        b"= by the flushes' own counts",
    );
    compared(
        page,
        sim_comparison::order(figures),
        b"= rows out of order",
        b"= there should be",
    );
    compared(
        page,
        sim_comparison::delivered(figures),
        b"= rows with a handler",
        b"= delivered, flushes' counts",
    );
}

// Are both figures 0?
fn has_none(p: Pair) -> bool
    ensures { result ≡ is.none_in p }
{
    p.left == 0 && p.right == 0
}

// A class's line in the table of deliveries or bytes; nothing where both figures are 0.
fn class_line(figures: &Figures, page: &mut Printer, of: Counted, class: u64)
    ensures { Prints (is.class_line figures.now of «class») page.old page.new }
{
    let p = sim_comparison::class(figures, of, class);
    if has_none(p) {
        return;
    }
    page.decimal_right(class, 5);
    page.decimal_right(p.left, 21);
    page.decimal_right(p.right, 22);
    say(page, b"\n");
}

// The lines of every class.
fn class_lines(figures: &Figures, page: &mut Printer, of: Counted)
    ensures { Prints (is.class_lines figures.now of) page.old page.new }
{
    for class in 0..8 {
        class_line(figures, page, of, class);
    }
}

// The table of deliveries or bytes, and whether every class agrees.
fn class_table(figures: &Figures, page: &mut Printer, of: Counted)
    ensures { Prints (is.class_table figures.now of) page.old page.new }
{
    if figures.log == 0 {
        right(page, b"no log", WIDE);
        say(page, b"\n");
        return;
    }
    say(page, b"class               = rows                 = log\n");
    class_lines(figures, page, of);
    verdict(page, sim_comparison::classes_differ(figures, of) == 0);
}

// The log's part, and the slips.
pub fn tables(figures: &Figures, page: &mut Printer)
    ensures { Prints (is.tables_part figures.now) page.old page.new }
{
    say(page, b"deliveries by class\n");
    class_table(figures, page, Counted::Deliveries);
    say(page, b"wire bytes by class\n");
    class_table(figures, page, Counted::Bytes);
    slips::slips(figures, page);
}
