// The checklist of a run, printed from its figures: five parts, each with its figures, what they were compared with, and `agrees` or
// `DIFFERS`; then a closing slip a till. At most 48 columns wide.
#![tactic(auto)]

ghost use Rattle.sim_sheet.specs.Sheet.{Prints};
ghost use Rattle.sim_checklist.specs.Checklist.{sheet_of};

use sim_checklist_copies::{copies, order, tables};
use sim_checklist_counts::{drops, head, marks, recipients, senders};
use sim_figures::Figures;
use sim_printer::Printer;

// The five parts, then the slips.
pub fn print(figures: &Figures, page: &mut Printer)
    ensures { Prints (sheet_of figures.now) page.old page.new }
{
    head(figures, page);
    recipients(figures, page);
    marks(figures, page);
    drops(figures, page);
    senders(figures, page);
    copies(figures, page);
    order(figures, page);
    tables(figures, page);
}
