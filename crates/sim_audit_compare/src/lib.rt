// A recorded answer beside the book's answers to the last call: noted in the account, and printed where they differ.
#![tactic(auto)]

ghost use Rattle.std.specs.Prelude.{◌≡◌, length};
ghost use Rattle.sim_audit_compare.specs.Compared as is;

use sim_audit_account::Account;
use sim_audit_lines::{agrees, first_line};

// The book's answer at a place, and the place behind it.
fn next_answer(book: &[u8], at: usize) -> Option<(&[u8], usize)>
    ensures { is.IsNext book.now at result }
{
    if book.len() <= at {
        return None;
    }
    let left = &book[at..];
    let (answer, rest) = first_line(left);
    Some((answer, at + (left.len() - rest.len())))
}

// A recorded answer and the book's next one.
#[tactic(auto, unfolding(crate::specs::Compared::compared_note))]
pub fn compared(told: &[u8], book: &[u8], account: &mut Account)
    ensures { account.new ≡ is.compared_note account.old told.now book.now }
{
    match next_answer(book, account.read) {
        None => {
            account.answered(false, account.read);
            sim_audit_difference::surplus(account, told);
        }
        Some((own, next)) => {
            let is_same = agrees(told, own);
            account.answered(is_same, next);
            if !is_same {
                sim_audit_difference::other(account, told, own);
            }
        }
    }
}

// The answers of the book that are not recorded.
fn closed(book: &[u8], account: &mut Account)
    ensures { account.new ≡ is.closed_by (length book.now) account.old book.now }
{
    while let Some((own, next)) = next_answer(book, account.read) {
        account.read = next;
        account.differs();
        sim_audit_difference::missing(account, own);
    }
}

// The end of a call's answers.
#[tactic(auto, unfolding(crate::specs::Compared::ended_note))]
pub fn ended(book: &[u8], account: &mut Account)
    ensures { account.new ≡ is.ended_note account.old book.now }
{
    closed(book, account);
    if book.starts_with(b"err ") {
        account.bad();
    }
}
