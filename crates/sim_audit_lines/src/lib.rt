// The lines of a recorded run: what a line is, and whether a recorded answer says what the book says.
#![tactic(auto)]

ghost use Rattle.std.specs.Prelude.{◌≡◌, position};
ghost use Rattle.std.specs.List.{before_first, after_first};
ghost use Rattle.sim_audit_lines.specs.Recorded as is;

// What a line is.
#[derive(Clone, Copy, Debug, PartialEq, Eq, Drop)]
pub enum LineKind {
    // It stands behind `>`.
    Call,
    Answer,
    // It is blank, or begins with `#`.
    Remark,
}

// Space, tab and carriage return. Not the script's own test: this crate uses no other, so that the verdict does not hang on the reader of scripts.
fn is_blank(b: u8) -> bool
    ensures { result ≡ is.blank b }
{
    matches!(b, b' ' | b'\t' | b'\r')
}

// The place of the last byte that is no blank.
fn last_mark(line: &[u8]) -> Option<usize>
    ensures { is.IsLastMark line.now result }
{
    line.iter().rposition(|b| !is_blank(*b))
}

// The line without the blanks at its end.
pub fn trimmed(line: &[u8]) -> &[u8]
    ensures { result.now ≡ is.trimmed line.now }
{
    match last_mark(line) {
        Some(last) => &line[..last + 1],
        None => &[],
    }
}

// What a line is.
pub fn kind_of(line: &[u8]) -> LineKind
    ensures { result ≡ is.line_kind line.now }
{
    match trimmed(line) {
        [] | [b'#', ..] => LineKind::Remark,
        [b'>', ..] => LineKind::Call,
        _ => LineKind::Answer,
    }
}

// Where the first line of a text ends.
fn line_end(text: &[u8]) -> Option<usize>
    ensures { result ≡ position is.ends_line text.now }
{
    text.iter().position(|b| *b == b'\n')
}

// The first line of a text, and what stands behind its line end.
pub fn first_line(text: &[u8]) -> (&[u8], &[u8])
    ensures line { result.0.now ≡ before_first is.ends_line text.now }
    ensures rest { result.1.now ≡ after_first is.ends_line text.now }
{
    match line_end(text) {
        Some(end) => (&text[..end], &text[end + 1..]),
        None => (text, &[]),
    }
}

// Does a word begin here that document 02 adds?
#[tactic(auto, unfolding(crate::specs::Recorded::added))]
fn is_added(rest: &[u8]) -> bool
    ensures { result ≡ is.added rest.now }
{
    rest.starts_with(b" time=") || rest.starts_with(b" kind=") || rest.starts_with(b" more=")
}

// A line of the book without these words.
fn plain(book: &[u8]) -> &[u8]
    ensures { result.now ≡ is.plain book.now }
{
    for end in 0..book.len() {
        if is_added(&book[end..]) {
            return &book[..end];
        }
    }
    book
}

// Does a recorded answer say what the book's line says?
#[tactic(auto, unfolding(crate::specs::Recorded::agreed))]
pub fn agrees(recorded: &[u8], book: &[u8]) -> bool
    ensures { result ≡ is.agreed recorded.now book.now }
{
    let told = trimmed(recorded);
    told == book || told == plain(book)
}
