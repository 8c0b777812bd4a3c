// The closing slips, one a till.
ghost use Rattle.sim_sheet.specs.Sheet.{Prints, table_of};
ghost use Rattle.sim_checklist_copies.specs.Copies as is;

use sim_figures::{Figures, Five, TillFigures};
use sim_printer::Printer;
use sim_sheet::{line, say, tills};

// What was dropped of a till's messages.
fn sender_drops(page: &mut Printer, sent: Five)
    ensures { Prints (is.sender_drops sent) page.old page.new }
{
    line(page, b"S dropped by partition", sent.partition);
    line(page, b"S dropped by loss", sent.loss);
    line(page, b"S dropped by a fault rule", sent.fault);
}

// A till as sender.
fn as_sender(page: &mut Printer, sent: Five)
    ensures { Prints (is.as_sender sent) page.old page.new }
{
    line(page, b"S sent", sent.sent);
    line(page, b"S deduplicated", sent.deduplicated);
    sender_drops(page, sent);
}

// A till as receiver.
fn as_receiver(page: &mut Printer, till: &TillFigures)
    ensures { Prints (is.as_receiver till.now) page.old page.new }
{
    line(page, b"R received", till.received);
    line(page, b"R dropped by a flush", till.lost_to);
    line(page, b"R in transit", till.transit);
}

// A till's slip.
fn slip(figures: &Figures, page: &mut Printer, t: u64)
    ensures { Prints (is.slip_of figures.now t) page.old page.new }
{
    let till = figures.till(t);
    say(page, b"\n");
    line(page, b"TILL", t);
    as_sender(page, till.sent);
    as_receiver(page, till);
}

// The slips of the first n tills.
fn slips_to(figures: &Figures, page: &mut Printer, n: u64)
    ensures { Prints (table_of (is.slip_of figures.now) n) page.old page.new }
{
    for t in 0..n {
        slip(figures, page, t);
    }
}

// The slip of every till.
pub fn slips(figures: &Figures, page: &mut Printer)
    ensures { Prints (is.slips_part figures.now) page.old page.new }
{
    say(page, b"\nCLOSING SLIPS: S as sender, R as receiver\n");
    slips_to(figures, page, tills(figures));
}
