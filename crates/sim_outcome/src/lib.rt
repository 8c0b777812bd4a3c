// What became of a script's line, and how a call is answered.
#![tactic(auto)]

ghost use Rattle.std.specs.Prelude.{◌≡◌};
ghost use Rattle.sim_sheet.specs.Sheet.{Prints};
ghost use Rattle.sim_outcome.specs.Answer.{numbered, refused_line, done_line, value_line, found_line, plain};
ghost use Rattle.sim_outcome.specs.declared.Outcome.TheVariants.{Refused};

use ask_refusal::Refusal;
use sim_figures::{Five, Said};
use sim_printer::Printer;
use sim_sheet::say;

// What became of a line; an accept and a flush say how much they did.
#[derive(Clone, Copy)]
pub enum Outcome {
    // It is answered where its number is known.
    Bad,
    Refused(Refusal),
    Done,
    Accepted(Five),
    Flushed { said: Said, due: u64 },
}

impl From<Result<(), Refusal>> for Outcome {
    ghost from_gives = { λ answer o. o ≡ plain answer };

    // A call that counts nothing.
    fn from(answer: Result<(), Refusal>) -> Outcome {
        match answer {
            Ok(()) => Outcome::Done,
            Err(refusal) => Outcome::Refused(refusal),
        }
    }
}

// A label, and a number behind it.
fn numbered(page: &mut Printer, label: &[u8], n: u64)
    ensures { Prints (numbered label.now n) page.old page.new }
{
    say(page, label);
    page.decimal(n);
    say(page, b"\n");
}

// A call that a question refused.
pub fn refused(page: &mut Printer, call: &[u8], refusal: Refusal) -> Outcome
    ensures prints { Prints (refused_line call.now refusal) page.old page.new }
    ensures is { result ≡ Refused refusal }
{
    say(page, call);
    numbered(page, b" refused ", refusal.number());
    Outcome::Refused(refusal)
}

// A call that answers `ok` or a refusal.
pub fn done(page: &mut Printer, call: &[u8], answer: Result<(), Refusal>) -> Outcome
    ensures prints { Prints (done_line call.now answer) page.old page.new }
    ensures is { result ≡ plain answer }
{
    match answer {
        Ok(()) => {
            say(page, call);
            say(page, b" ok\n");
            Outcome::Done
        }
        Err(refusal) => refused(page, call, refusal),
    }
}

// A call that answers a number, behind its label, or a refusal.
pub fn valued(
    page: &mut Printer,
    call: &[u8],
    label: &[u8],
    answer: Result<u64, Refusal>,
) -> Outcome
    ensures prints { Prints (value_line call.now label.now answer) page.old page.new }
    ensures is { result ≡ plain answer }
{
    match answer {
        Ok(value) => {
            numbered(page, label, value);
            Outcome::Done
        }
        Err(refusal) => refused(page, call, refusal),
    }
}

// A call that answers a number, behind its label, or where there is none a text, or a refusal.
pub fn found(
    page: &mut Printer,
    call: &[u8],
    label: &[u8],
    none: &[u8],
    answer: Result<Option<u64>, Refusal>,
) -> Outcome
    ensures prints { Prints (found_line call.now label.now none.now answer) page.old page.new }
    ensures is { result ≡ plain answer }
{
    match answer {
        Ok(Some(value)) => {
            numbered(page, label, value);
            Outcome::Done
        }
        Ok(None) => {
            say(page, none);
            Outcome::Done
        }
        Err(refusal) => refused(page, call, refusal),
    }
}
