// The next line of a recorded run: an answer is compared with the book's, a call is read and, behind this, played.
#![tactic(auto)]

ghost use Rattle.std.specs.Prelude.{◌≡◌, Bool, take};
ghost use Rattle.sim_spelling.specs.Spelling.{part_of};
ghost use Rattle.sim_audit_turn.specs.Heard.{heard_note, played_if, turn_note};

use sim_audit_account::Account;
use sim_audit_figures::Figures;
use sim_audit_lines::LineKind;
use sim_printer::Printer;
use sim_session::input::Input;
use sim_session::lines::{Line, Session};
use sim_session::turns::Turn;
use sim_session::{input, lines};
use sim_spelling::words::part;
use std::io::Read;
use std::rt::Clock;

// What a line does, the lines before it being done: an answer is compared; a call ends the answers to the last one, and begins.
fn heard(kind: LineKind, told: &[u8], book: &[u8], account: &mut Account, figures: &mut Figures)
    ensures { account.new ≡ heard_note kind account.old told.now book.now }
{
    match kind {
        LineKind::Answer => {
            sim_audit_compare::compared(told, book, account);
            figures.answered(told);
        }
        LineKind::Call => {
            sim_audit_compare::ended(book, account);
            figures.booked(book);
            account.call(part(told, 1, told.len()));
            figures.called(told);
        }
        LineKind::Remark => {}
    }
}

// The call behind `>`. Any other line is passed over.
fn read<'a>(
    kind: LineKind,
    call: &[u8],
    is_long: bool,
    room: &'a mut [u8],
    masks: &mut [u64],
) -> Line<'a> {
    match kind {
        LineKind::Call => lines::read(call, is_long, room, masks),
        LineKind::Answer | LineKind::Remark => Line::Skipped,
    }
}

// A call begins its answers anew; it is counted among the calls, for the number of a bad one.
fn begun(rt: &impl Clock, kind: LineKind, page: &mut Printer, r: Session) -> Session {
    match kind {
        LineKind::Call => {
            page.clear();
            lines::counted(rt, r)
        }
        LineKind::Answer | LineKind::Remark => r,
    }
}

// A call that the book knows is counted.
fn counted(line: Line<'_>, account: &mut Account)
    ensures { (b : Bool) × (account.new ≡ played_if b account.old) }
{
    match line {
        Line::Open { .. } | Line::Call(_) => account.played(),
        Line::Skipped | Line::Bad => {}
    }
}

// The next line of the recording; `page` holds the book's answers to the last call. Bytes, keys and names go to `room`, masks to `masks`.
// The buffers come one by one, as in `turns::next`.
pub fn next<'a, R: Clock, S: Read>(
    rt: &R,
    from: &mut S,
    piece: &mut [u8],
    line: &mut [u8],
    room: &'a mut [u8],
    masks: &mut [u64],
    page: &mut Printer,
    account: &mut Account,
    figures: &mut Figures,
    i: Input,
    r: Session,
) -> Turn<'a>
    ensures { (b : Bool) × (account.new ≡ turn_note b account.old (part_of line.new 0 result.input.n) (take page.old.used page.old.held)) }
{
    let input = input::next_line(from, piece, line, i);
    let told = part(line, 0, input.n);
    let kind = sim_audit_lines::kind_of(told);
    account.line();
    heard(kind, told, page.as_slice(), account, figures);
    let call = part(line, 1, input.n);
    let line = lines::admitted(read(kind, call, input.long, room, masks), r);
    counted(line, account);
    let session = begun(rt, kind, page, r);
    Turn {
        input,
        session,
        line,
    }
}
