// A difference between a recorded answer and the book's, printed: the call by its line and its words, then what differs, word by word.
#![tactic(auto)]

use sim_audit_account::Account;
use sim_printer::Printer;
use sim_sheet::{WIDE, label, right};
use sim_spelling::words::words_of;

// Differences that are printed in full; later ones are counted.
pub const MOST: u64 = 20;

// Columns: of a label, of each of two figures behind it.
const LABEL: usize = 14;

const COLUMN: usize = 17;

// The line above a difference: the call's line and its words. Above the first, the names of the columns.
fn head(page: &mut Printer, account: &Account) {
    if account.differ == 1 {
        page.text(b"DIFFERENCES            recorded      by the book\n");
    }
    page.text(b"line ");
    page.decimal(account.call.unwrap_or(0));
    page.text(b":");
    page.text(account.words.shown());
    page.text(b"\n");
}

// Does a line tell of a copy?
fn is_copy(line: &[u8]) -> bool {
    matches!(
        words_of(line).next(),
        Some(b"row" | b"drop" | b"copy" | b"record")
    )
}

// The names of the words of a copy's line, of which the first says what answers.
const COPY_FIELDS: [&[u8]; 13] = [
    b"  answer",
    b"  from",
    b"  to",
    b"  type",
    b"  class",
    b"  sent",
    b"  delivered",
    b"  shard",
    b"  bytes",
    b"  sequence",
    b"  id",
    b"  tag",
    b"  handlers",
];

// The name of a word, where it has one before its `=`, and its value.
fn named(word: &[u8]) -> (&[u8], &[u8]) {
    match word.iter().position(|b| *b == b'=') {
        Some(end) => (&word[..end], &word[end + 1..]),
        None => (&[], word),
    }
}

// The label of the k-th word of a line: its name, the field of a copy, or its number.
fn word_label(page: &mut Printer, line: &[u8], word: &[u8], k: usize) {
    let (name, _) = named(word);
    if name.len() != 0 {
        page.text(b"  ");
        label(page, name, LABEL - 2);
    } else if is_copy(line) {
        label(page, COPY_FIELDS.get(k).unwrap_or(&COPY_FIELDS[0]), LABEL);
    } else {
        page.text(b"  word ");
        page.decimal_right(k as u64, 3);
        page.spaces(LABEL - 10);
    }
}

// A word's value behind a space, or a dash where there is no word.
fn value(page: &mut Printer, word: Option<&[u8]>) {
    page.text(b" ");
    match word {
        None => right(page, b"-", COLUMN - 1),
        Some(w) => right(page, named(w).1, COLUMN - 1),
    }
}

// The k-th words of two lines, beside each other.
fn beside(page: &mut Printer, line: &[u8], told: Option<&[u8]>, own: Option<&[u8]>, k: usize) {
    word_label(page, line, own.unwrap_or(b""), k);
    value(page, told);
    value(page, own);
    page.text(b"\n");
}

// Words of one line that are printed.
const WORDS: usize = 8;

// The words in which two lines differ.
fn words(page: &mut Printer, recorded: &[u8], book: &[u8]) {
    let mut told = words_of(recorded);
    let mut own = words_of(book);
    let mut shown = 0;
    for k in 0..recorded.len().max(book.len()) {
        let (a, b) = (told.next(), own.next());
        if WORDS <= shown || (a.is_none() && b.is_none()) {
            return;
        }
        if a != b {
            beside(page, book, a, b, k);
            shown += 1;
        }
    }
}

// Bytes that are gathered before they are written.
const ROOM: usize = 1024;

// An answer and the book's, which differ.
pub fn other(account: &Account, recorded: &[u8], book: &[u8]) {
    if account.differ <= MOST {
        let mut room = [0u8; ROOM];
        let mut page = Printer::new(&mut room);
        head(&mut page, account);
        words(&mut page, recorded, book);
        page.finish();
    }
}

// An answer that one side alone has, under a line that says which.
fn alone(account: &Account, what: &[u8], line: &[u8]) {
    if account.differ <= MOST {
        let mut room = [0u8; ROOM];
        let mut page = Printer::new(&mut room);
        head(&mut page, account);
        page.text(what);
        page.text(line.get(..WIDE - 2).unwrap_or(line));
        page.text(b"\n");
        page.finish();
    }
}

// An answer that the book does not have.
pub fn surplus(account: &Account, recorded: &[u8]) {
    alone(account, b"  recorded alone:\n  ", recorded);
}

// An answer of the book that is not recorded.
pub fn missing(account: &Account, book: &[u8]) {
    alone(account, b"  by the book alone:\n  ", book);
}
