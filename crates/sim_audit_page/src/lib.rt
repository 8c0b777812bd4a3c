// The page of an audit: what was compared, the differences by number, and the verdict.
#![tactic(auto)]

ghost use Rattle.std.specs.Prelude.{◌≡◌};
ghost use Rattle.sim_audit_compare.specs.Compared.{ended_note};
ghost use Rattle.sim_sheet.specs.Sheet.{Prints};
ghost use Rattle.sim_audit_page.specs.Summary as is;

use sim_audit_account::Account;
use sim_audit_figures::Figures;
use sim_printer::Printer;
use sim_sheet::{line, say};

// The first call that differs, where there is one.
fn first(page: &mut Printer, call: Option<u64>)
    ensures { Prints (is.first_of call) page.old page.new }
{
    match call {
        Some(at) => line(page, b"the first: call at line", at),
        None => {}
    }
}

// The verdict.
fn verdict(page: &mut Printer, passes: bool)
    ensures { Prints (is.verdict_of passes) page.old page.new }
{
    match passes {
        true => say(page, b"PASS\n"),
        false => say(page, b"FAIL\n"),
    }
}

// What was read, played and compared, the differences, the verdict.
pub fn summary(page: &mut Printer, account: &Account)
    ensures { Prints (is.summary_of account.now) page.old page.new }
{
    say(page, b"\nAUDIT OF A RECORDED RUN\n");
    line(page, b"lines of the recording", account.lines);
    line(page, b"calls played", account.calls);
    line(page, b"answers compared", account.answers);
    line(page, b"lines that are no call", account.bad);
    line(page, b"differences", account.differ);
    first(page, account.first);
    verdict(page, account.passes());
}

// Bytes that are gathered before they are written.
const ROOM: usize = 1024;

// The end of an audit: the book's answers to the last call end, and the page is printed.
pub fn finish(book: &[u8], account: &mut Account, figures: &mut Figures)
    ensures account { account.new ≡ ended_note account.old book.now }
    ensures recorded { figures.new.recorded ≡ figures.old.recorded }
{
    sim_audit_compare::ended(book, account);
    figures.booked(book);
    let mut room = [0u8; ROOM];
    let mut page = Printer::new(&mut room);
    sim_audit_sheet::print(&mut page, figures);
    summary(&mut page, account);
    page.finish();
}
