// The lines of the checklist, printed: at most 48 columns, a figure a line, and under two lines marked = whether they agree;
// and the rows of its tables.
#![tactic(auto)]

ghost use Rattle.std.specs.Prelude.{◌≡◌, ◌∷◌, [], min};
ghost use Rattle.sim_sheet.specs.Sheet.{Prints, text, labelled, line_of, at_right, verdict_in, verdict_line, judged_lines, compared_lines, bounded_lines, four_of, three_of};

use sim_comparison::Pair;
use sim_figures::{Figures, MOST_TILLS};
use sim_printer::Printer;

// Columns of a page, of a label, of a figure behind it.
pub const WIDE: usize = 48;

const LABEL: usize = 28;

const FIGURE: usize = WIDE - LABEL;

// A text.
pub fn say(page: &mut Printer, what: &[u8])
    ensures { Prints (text what.now ∷ []) page.old page.new }
{
    page.text(what);
}

// A label, padded to a width.
pub fn label(page: &mut Printer, what: &[u8], width: usize)
    ensures { Prints (labelled what.now width) page.old page.new }
{
    say(page, what);
    page.spaces(width.saturating_sub(what.len()));
}

// A line with a label and a figure.
pub fn line(page: &mut Printer, what: &[u8], n: u64)
    ensures { Prints (line_of what.now n) page.old page.new }
{
    label(page, what, LABEL);
    page.decimal_right(n, FIGURE);
    say(page, b"\n");
}

// A word at the right end of a column.
pub fn right(page: &mut Printer, what: &[u8], width: usize)
    ensures { Prints (at_right what.now width) page.old page.new }
{
    page.spaces(width.saturating_sub(what.len()));
    say(page, what);
}

// `agrees` or `DIFFERS` at the right end of a column.
pub fn verdict_in(page: &mut Printer, same: bool, width: usize)
    ensures { Prints (verdict_in same width) page.old page.new }
{
    if same {
        right(page, b"agrees", width);
        return;
    }
    right(page, b"DIFFERS", width);
}

// A line that says whether figures agree.
pub fn verdict(page: &mut Printer, same: bool)
    ensures { Prints (verdict_line same) page.old page.new }
{
    verdict_in(page, same, WIDE);
    say(page, b"\n");
}

// The two figures of a comparison, and whether they are as they should be.
fn judged(page: &mut Printer, p: Pair, same: bool, left: &[u8], other: &[u8])
    ensures { Prints (judged_lines p same left.now other.now) page.old page.new }
{
    line(page, left, p.left);
    line(page, other, p.right);
    verdict(page, same);
}

// Do the two agree?
pub fn compared(page: &mut Printer, p: Pair, left: &[u8], other: &[u8])
    ensures { Prints (compared_lines p left.now other.now) page.old page.new }
{
    judged(page, p, p.agrees(), left, other);
}

// The same where the left one may be less.
pub fn bounded(page: &mut Printer, p: Pair, left: &[u8], other: &[u8])
    ensures { Prints (bounded_lines p left.now other.now) page.old page.new }
{
    judged(page, p, p.is_within(), left, other);
}

// A row of four figures behind a name of four columns.
pub fn four(page: &mut Printer, a: u64, b: u64, c: u64, d: u64)
    ensures { Prints (four_of a b c d) page.old page.new }
{
    page.decimal_right(a, 11);
    page.decimal_right(b, 11);
    page.decimal_right(c, 11);
    page.decimal_right(d, 11);
    say(page, b"\n");
}

// A row of three figures behind a label of twelve columns.
pub fn three(page: &mut Printer, what: &[u8], a: u64, b: u64, c: u64)
    ensures { Prints (three_of what.now a b c) page.old page.new }
{
    label(page, what, 12);
    page.decimal_right(a, 12);
    page.decimal_right(b, 12);
    page.decimal_right(c, 12);
    say(page, b"\n");
}

// How many tills have a slip.
pub fn tills(figures: &Figures) -> u64
    ensures { result ≡ min figures.now.tills 64 }
{
    figures.tills.min(MOST_TILLS)
}
