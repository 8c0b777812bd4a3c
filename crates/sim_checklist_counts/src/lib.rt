// The head of the checklist and its parts A to C, printed: recipients, seen marks, drops by cause and by the till that sent.
#![tactic(auto)]

ghost use Rattle.sim_figures.specs.Figures.{most_numbers};
ghost use Rattle.sim_sheet.specs.Sheet.{Prints};
ghost use Rattle.sim_checklist_counts.specs.Counts as is;

use sim_comparison::Column;
use sim_figures::{Figures, MOST_NUMBERS};
use sim_printer::Printer;
use sim_sheet::{bounded, compared, four, line, say, verdict};

// How many calls a question refused; nothing where none.
fn refusal(figures: &Figures, page: &mut Printer, number: u64)
    ensures { Prints (is.refusal_of figures.now number) page.old page.new }
{
    let n = figures.refused_by(number);
    if n == 0 {
        return;
    }
    say(page, b"  by question ");
    page.decimal_right(number, 2);
    page.decimal_right(n, 32);
    say(page, b"\n");
}

// The same of every question.
fn refusals(figures: &Figures, page: &mut Printer)
    ensures { Prints (is.refusals_of figures.now most_numbers) page.old page.new }
{
    for n in 0..MOST_NUMBERS {
        refusal(figures, page, n + 1);
    }
}

// How much there was, what was refused, and how many comparisons differ.
pub fn head(figures: &Figures, page: &mut Printer)
    ensures { Prints (is.head_of figures.now) page.old page.new }
{
    say(page, b"CHECKLIST OF THE RUN\n");
    line(page, b"tills", figures.tills);
    line(page, b"messages accepted", figures.accepts);
    line(page, b"flushes", figures.flushes);
    line(page, b"calls refused", sim_comparison::refused(figures));
    refusals(figures, page);
    line(
        page,
        b"comparisons that differ",
        sim_comparison::differ(figures),
    );
}

// Part A.
pub fn recipients(figures: &Figures, page: &mut Printer)
    ensures { Prints (is.recipients_of figures.now) page.old page.new }
{
    let five = figures.five;
    say(page, b"\nA. RECIPIENTS, BY THE ANSWERS OF ACCEPT\n");
    line(page, b"sent", five.sent);
    line(page, b"deduplicated", five.deduplicated);
    line(page, b"partition", five.partition);
    line(page, b"loss", five.loss);
    let by_rule = five.fault;
    line(page, b"fault rule", by_rule);
    compared(
        page,
        sim_comparison::counts(figures),
        b"= the five together",
        b"= recipients by the masks",
    );
}

// Part B.
pub fn marks(figures: &Figures, page: &mut Printer)
    ensures { Prints (is.marks_part figures.now) page.old page.new }
{
    let five = figures.five;
    say(page, b"\nB. SEEN MARKS\n");
    line(page, b"set by sent originals", five.sent);
    line(page, b"gone with take-downs", figures.down_marks);
    line(page, b"gone with flush drops", figures.flush_marks);
    compared(
        page,
        sim_comparison::marks(figures),
        b"= so these should stand",
        b"= standing in the tables",
    );
    bounded(
        page,
        sim_comparison::cleared(figures),
        b"= gone with flush drops",
        b"= at most: originals dropped",
    );
}

// Part C, by cause.
pub fn drops(figures: &Figures, page: &mut Printer)
    ensures { Prints (is.drops_part figures.now) page.old page.new }
{
    let five = figures.five;
    say(page, b"\nC. DROPS BY CAUSE\n");
    line(page, b"partition", five.partition);
    line(page, b"loss", five.loss);
    line(page, b"fault rule", five.fault);
    compared(
        page,
        sim_comparison::at_accept(figures),
        b"= dropped at accept",
        b"= recipients - dedup. - sent",
    );
    compared(
        page,
        sim_comparison::flush_drops(figures),
        b"= copies dropped by flushes",
        b"= by the flushes' own counts",
    );
}

// The drops of what a till sent.
fn sender_row(figures: &Figures, page: &mut Printer, t: u64)
    ensures { Prints (is.sender_row figures.now t) page.old page.new }
{
    let till = figures.till(t);
    page.decimal_right(t, 4);
    four(
        page,
        till.sent.partition,
        till.sent.loss,
        till.sent.fault,
        till.lost_from,
    );
}

// The same of the first tills.
fn sender_rows(figures: &Figures, page: &mut Printer, tills: u64)
    ensures { Prints (is.sender_rows figures.now tills) page.old page.new }
{
    for t in 0..tills {
        sender_row(figures, page, t);
    }
}

// Part C, by the till that sent.
pub fn senders(figures: &Figures, page: &mut Printer)
    ensures { Prints (is.senders_part figures.now) page.old page.new }
{
    let five = figures.five;
    say(page, b"drops by the till that sent\n");
    say(page, b"till  partition       loss      fault      flush\n");
    sender_rows(figures, page, sim_sheet::tills(figures));
    say(page, b"=sum");
    four(
        page,
        sim_comparison::total(figures, Column::Partition),
        sim_comparison::total(figures, Column::Loss),
        sim_comparison::total(figures, Column::Fault),
        sim_comparison::total(figures, Column::LostFrom),
    );
    say(page, b"=all");
    let flush = sim_comparison::flush_drops(figures);
    four(page, five.partition, five.loss, five.fault, flush.left);
    verdict(page, sim_comparison::senders_differ(figures) == 0);
}
