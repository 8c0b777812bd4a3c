// What the checklist compares with what, from the figures of a run, and how many comparisons differ.
#![tactic(auto)]

ghost use Rattle.std.specs.Prelude.{◌≡◌};
ghost use Rattle.sim_comparison.specs.Compared as is;

use sim_figures::{ClassFigures, Figures, Five, Kinds, MOST_CLASSES, Tally, TillFigures};

// Two figures that should be the same.
#[derive(Clone, Copy, PartialEq)]
pub struct Pair {
    pub left: u64,
    pub right: u64,
}

impl Pair {
    // Are the two the same?
    pub fn agrees(self) -> bool
        ensures { result ≡ is.agreed self }
    {
        self.left == self.right
    }

    // Is the left one no more than the right one?
    pub fn is_within(self) -> bool
        ensures { result ≡ is.within self }
    {
        self.left <= self.right
    }
}

// A figure of a till that the tills' rows have together.
#[derive(Clone, Copy)]
pub enum Column {
    Partition,
    Loss,
    Fault,
    LostFrom,
    Transit,
}

impl Column {
    // The figure of one till.
    fn of(self, till: &TillFigures) -> u64
        ensures { result ≡ is.till_figure self till.now }
    {
        match self {
            Column::Partition => till.sent.partition,
            Column::Loss => till.sent.loss,
            Column::Fault => till.sent.fault,
            Column::LostFrom => till.lost_from,
            Column::Transit => till.transit,
        }
    }
}

// What is counted of a class.
#[derive(Clone, Copy)]
pub enum Counted {
    Deliveries,
    Bytes,
}

impl Counted {
    // What is counted, of a tally.
    fn of(self, tally: Tally) -> u64
        ensures { result ≡ is.tally_figure self tally }
    {
        match self {
            Counted::Deliveries => tally.deliveries,
            Counted::Bytes => tally.bytes,
        }
    }
}

// The five counts together.
fn together(five: Five) -> u64
    ensures { result ≡ is.five_together five }
{
    five.sent
        .wrapping_add(five.deduplicated)
        .wrapping_add(five.partition)
        .wrapping_add(five.loss)
        .wrapping_add(five.fault)
}

// Originals and echoes together.
fn both(kinds: Kinds) -> u64
    ensures { result ≡ is.both_of kinds }
{
    kinds.originals.wrapping_add(kinds.echoes)
}

// A figure of every till, together.
#[tactic(auto, unfolding(crate::specs::Compared::column_of))]
pub fn total(figures: &Figures, of: Column) -> u64
    ensures { result ≡ is.column_of figures.now of }
{
    figures
        .of_tills
        .iter()
        .fold(0, |sum: u64, till| sum.wrapping_add(of.of(till)))
}

// The calls that any question refused.
#[tactic(auto, unfolding(crate::specs::Compared::refused_sum))]
pub fn refused(figures: &Figures) -> u64
    ensures { result ≡ is.refused_sum figures.now }
{
    figures
        .refused
        .iter()
        .fold(0, |sum: u64, n| sum.wrapping_add(*n))
}

// The five counts together, and the recipients.
pub fn counts(figures: &Figures) -> Pair
    ensures { result ≡ is.counts_of figures.now }
{
    Pair {
        left: together(figures.five),
        right: figures.recipients,
    }
}

// The marks that were sent and have not gone, and those that stand.
pub fn marks(figures: &Figures) -> Pair
    ensures { result ≡ is.marks_of figures.now }
{
    let gone = figures.down_marks.wrapping_add(figures.flush_marks);
    Pair {
        left: figures.five.sent.saturating_sub(gone),
        right: figures.standing,
    }
}

// The marks that flushes took away, and the originals that they dropped.
pub fn cleared(figures: &Figures) -> Pair
    ensures { result ≡ is.cleared_of figures.now }
{
    Pair {
        left: figures.flush_marks,
        right: figures.dropped.originals,
    }
}

// What was dropped at accept, and the recipients that were neither sent to nor deduplicated.
pub fn at_accept(figures: &Figures) -> Pair
    ensures { result ≡ is.at_accept_of figures.now }
{
    let five = figures.five;
    let had = five.sent.wrapping_add(five.deduplicated);
    Pair {
        left: five
            .partition
            .wrapping_add(five.loss)
            .wrapping_add(five.fault),
        right: figures.recipients.saturating_sub(had),
    }
}

// The copies that flushes dropped, and what they said of it.
pub fn flush_drops(figures: &Figures) -> Pair
    ensures { result ≡ is.flush_drops_of figures.now }
{
    Pair {
        left: both(figures.dropped),
        right: figures.said.dropped,
    }
}

// A figure of every till together, and the run's own.
pub fn by_tills(figures: &Figures, of: Column) -> Pair
    ensures { result ≡ is.column_pair figures.now of }
{
    let right = match of {
        Column::Partition => figures.five.partition,
        Column::Loss => figures.five.loss,
        Column::Fault => figures.five.fault,
        Column::LostFrom => both(figures.dropped),
        Column::Transit => figures.waiting.originals,
    };
    Pair {
        left: total(figures, of),
        right,
    }
}

// The copies that landed, were dropped or wait.
fn placed(figures: &Figures) -> Kinds
    ensures { result ≡ is.placed_of figures.now }
{
    let (landed, dropped, waiting) = (figures.landed, figures.dropped, figures.waiting);
    Kinds {
        originals: landed
            .originals
            .wrapping_add(dropped.originals)
            .wrapping_add(waiting.originals),
        echoes: landed
            .echoes
            .wrapping_add(dropped.echoes)
            .wrapping_add(waiting.echoes),
    }
}

// The originals that landed, were dropped or wait, and the sent ones.
pub fn originals(figures: &Figures) -> Pair
    ensures { result ≡ is.originals_of figures.now }
{
    Pair {
        left: placed(figures).originals,
        right: figures.five.sent,
    }
}

// The copies that were given a sequence.
fn scheduled(figures: &Figures) -> u64
    ensures { result ≡ is.scheduled_of figures.now }
{
    figures.last.saturating_sub(figures.first)
}

// The echoes that landed, were dropped or wait, and the sequences that no original has.
pub fn echoes(figures: &Figures) -> Pair
    ensures { result ≡ is.echoes_of figures.now }
{
    Pair {
        left: placed(figures).echoes,
        right: scheduled(figures).saturating_sub(figures.five.sent),
    }
}

// All copies, and the sequences that were given.
pub fn copies(figures: &Figures) -> Pair
    ensures { result ≡ is.copies_of figures.now }
{
    let moved = both(figures.landed).wrapping_add(both(figures.dropped));
    Pair {
        left: moved.wrapping_add(both(figures.waiting)),
        right: scheduled(figures),
    }
}

// The copies that landed, and the rows that flushes said.
pub fn rows(figures: &Figures) -> Pair
    ensures { result ≡ is.rows_of figures.now }
{
    Pair {
        left: both(figures.landed),
        right: figures.said.rows,
    }
}

// The rows out of order, and none.
pub fn order(figures: &Figures) -> Pair
    ensures { result ≡ is.order_of figures.now }
{
    Pair {
        left: figures.late,
        right: 0,
    }
}

// The rows with a handler, and the deliveries that flushes said.
pub fn delivered(figures: &Figures) -> Pair
    ensures { result ≡ is.delivered_of figures.now }
{
    Pair {
        left: figures.handled,
        right: figures.said.delivered,
    }
}

// A class's figure from the rows and the log's; a run without a log has none to compare.
fn class_pair(log: u64, of: Counted, class: &ClassFigures) -> Pair
    ensures { result ≡ is.class_pair log of «class».now }
{
    let left = of.of(class.rows);
    Pair {
        left,
        right: if log == 0 { left } else { of.of(class.logged) },
    }
}

// Deliveries or bytes of a class.
pub fn class(figures: &Figures, of: Counted, k: u64) -> Pair
    ensures { result ≡ is.class_of figures.now of k }
{
    class_pair(figures.log, of, figures.class(k))
}

// How many of the eight classes differ.
#[tactic(auto, unfolding(crate::specs::Compared::classes_differ))]
pub fn classes_differ(figures: &Figures, of: Counted) -> u64
    ensures { result ≡ is.classes_differ figures.now of }
{
    let log = figures.log;
    let classes = figures.classes[..MOST_CLASSES as usize].iter();
    classes
        .filter(|class| !class_pair(log, of, class).agrees())
        .count() as u64
}

// How many of some comparisons differ.
fn differing(agree: &[bool]) -> u64
    ensures { result ≡ is.differing agree.now }
{
    agree.iter().filter(|same| !**same).count() as u64
}

// How many of the comparisons by sender differ.
#[tactic(auto, unfolding(crate::specs::Compared::senders_differ))]
pub fn senders_differ(figures: &Figures) -> u64
    ensures { result ≡ is.senders_differ figures.now }
{
    differing(&[
        by_tills(figures, Column::Partition).agrees(),
        by_tills(figures, Column::Loss).agrees(),
        by_tills(figures, Column::Fault).agrees(),
        by_tills(figures, Column::LostFrom).agrees(),
    ])
}

// How many of the comparisons of accepts and marks differ.
#[tactic(auto, unfolding(crate::specs::Compared::accepts_differ))]
fn accepts_differ(figures: &Figures) -> u64
    ensures { result ≡ is.accepts_differ figures.now }
{
    differing(&[
        counts(figures).agrees(),
        marks(figures).agrees(),
        cleared(figures).is_within(),
        at_accept(figures).agrees(),
        flush_drops(figures).agrees(),
    ])
}

// How many of the comparisons of copies differ.
#[tactic(auto, unfolding(crate::specs::Compared::copies_differ))]
fn copies_differ(figures: &Figures) -> u64
    ensures { result ≡ is.copies_differ figures.now }
{
    differing(&[
        originals(figures).agrees(),
        echoes(figures).agrees(),
        copies(figures).agrees(),
        by_tills(figures, Column::Transit).agrees(),
    ])
}

// How many of the comparisons of rows differ.
#[tactic(auto, unfolding(crate::specs::Compared::rows_differ))]
fn rows_differ(figures: &Figures) -> u64
    ensures { result ≡ is.rows_differ figures.now }
{
    differing(&[
        rows(figures).agrees(),
        order(figures).agrees(),
        delivered(figures).agrees(),
    ])
}

// How many comparisons differ.
#[tactic(auto, unfolding(crate::specs::Compared::differ_of))]
pub fn differ(figures: &Figures) -> u64
    ensures { result ≡ is.differ_of figures.now }
{
    let calls = accepts_differ(figures).wrapping_add(senders_differ(figures));
    let moved = copies_differ(figures).wrapping_add(rows_differ(figures));
    let deliveries = classes_differ(figures, Counted::Deliveries);
    let bytes = classes_differ(figures, Counted::Bytes);
    calls
        .wrapping_add(moved)
        .wrapping_add(deliveries)
        .wrapping_add(bytes)
}
