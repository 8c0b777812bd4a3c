// The figures of a run, for the checklist that is filled in from them.
//
// After each accepted call the caller takes a note: opened, accepted, row and drops for each due copy of a flush and then
// flushed, went_down, came_up, tallied for each class before a drain; refused for a call that a number refused. At the end it
// notes what stands: waits for each waiting copy, tallied for each class, stands for the marks. The checklist is printed from the figures.
// Recipients are counted by the masks kept here, from the calls' arguments; never from the network's tables.
#![tactic(auto)]

ghost use Rattle.std.specs.Prelude.{◌≡◌, ◌+◌, ◌≤◌, min, length, nat_le};
ghost use Rattle.sim_figures.specs.Figures as at;
ghost use Rattle.sim_figures.specs.Notes as note;

use std::ops::AddAssign;
use table_rows::Row;
use table_waiting::Copy;

// How many tills, classes and numbers of questions have rows of their own; a later one shares the row behind them.
pub const MOST_TILLS: u64 = 64;

pub const MOST_CLASSES: u64 = 8;

pub const MOST_NUMBERS: u64 = 25;

// The rows of tills, of classes and of numbers, that of 0 with these.
pub const TILLS: usize = MOST_TILLS as usize + 1;

pub const CLASSES: usize = MOST_CLASSES as usize + 1;

pub const NUMBERS: usize = MOST_NUMBERS as usize + 1;

// A scope that is no shard: a number, as the engine's calls take it from C. This crate uses none of the calls'.
const GLOBAL: u64 = 16;

// Where a row has its handlers. Words by their places: this crate uses none of the calls', whose flush writes a row.
const GOSSIP: usize = table_waiting::WIDTH;

const HOST: usize = table_waiting::WIDTH + 1;

// How many words a row has.
const ROW: usize = table_waiting::WIDTH + 2;

// What became of a message's recipients. This and a tally are not the types of the call and of its log: this crate uses none of theirs, so that
// what is counted here does not hang on what it is compared with.
#[derive(Clone, Copy, Debug, PartialEq, Eq, Default, Drop)]
pub struct Five {
    pub sent: u64,
    pub deduplicated: u64,
    pub partition: u64,
    pub loss: u64,
    pub fault: u64,
}

// What a flush says of itself: rows, delivered and dropped copies.
#[derive(Clone, Copy, Debug, PartialEq, Eq, Default, Drop)]
pub struct Said {
    pub rows: u64,
    pub delivered: u64,
    pub dropped: u64,
}

// Copies of both kinds.
#[derive(Clone, Copy, Debug, PartialEq, Eq, Default, Drop)]
pub struct Kinds {
    pub originals: u64,
    pub echoes: u64,
}

// Deliveries and their bytes.
#[derive(Clone, Copy, Debug, PartialEq, Eq, Default, Drop)]
pub struct Tally {
    pub deliveries: u64,
    pub bytes: u64,
}

// Of a class: by the rows, and by the log.
#[derive(Clone, Copy, Default)]
pub struct ClassFigures {
    pub rows: Tally,
    pub logged: Tally,
}

// Of a till: its shard mask; as sender the five counts; landed at it; flush drops on the way to it, and of what it sent; waiting for it.
#[derive(Clone, Copy, Default)]
pub struct TillFigures {
    pub mask: u64,
    pub sent: Five,
    pub received: u64,
    pub lost_to: u64,
    pub lost_from: u64,
    pub transit: u64,
}

// Of a run.
#[derive(Clone, Copy)]
pub struct Figures {
    // Tills of the opening, slots of its log, the sequence at the opening and the last one given.
    pub tills: u64,
    pub log: u64,
    pub first: u64,
    pub last: u64,
    // Accepted messages, the recipients other than the sender of each, and what became of these.
    pub accepts: u64,
    pub recipients: u64,
    pub five: Five,
    // Seen marks that take-downs and flushes took away, and those that stand at the end.
    pub down_marks: u64,
    pub flush_marks: u64,
    pub standing: u64,
    // Flushes, and what they said themselves.
    pub flushes: u64,
    pub said: Said,
    // Rows with a handler; rows that stand out of order; time and sequence of the flush's last row.
    pub handled: u64,
    pub late: u64,
    pub time: u64,
    pub sequence: u64,
    // Copies that landed, that a flush dropped, that wait.
    pub landed: Kinds,
    pub dropped: Kinds,
    pub waiting: Kinds,
    // Refused calls by their number.
    pub refused: [u64; NUMBERS],
    pub classes: [ClassFigures; CLASSES],
    pub of_tills: [TillFigures; TILLS],
}

// Every figure 0.
pub fn none() -> Figures
    ensures { result ≡ at.no_figures }
{
    Figures {
        tills: 0,
        log: 0,
        first: 0,
        last: 0,
        accepts: 0,
        recipients: 0,
        five: Five::default(),
        down_marks: 0,
        flush_marks: 0,
        standing: 0,
        flushes: 0,
        said: Said::default(),
        handled: 0,
        late: 0,
        time: 0,
        sequence: 0,
        landed: Kinds::default(),
        dropped: Kinds::default(),
        waiting: Kinds::default(),
        refused: [0; NUMBERS],
        classes: [ClassFigures::default(); CLASSES],
        of_tills: [TillFigures::default(); TILLS],
    }
}

// The row of a till.
fn till_row(t: u64) -> usize
    ensures is { result ≡ at.till_row t }
    ensures within { result ≤ 64 }
{
    t.min(MOST_TILLS) as usize
}

// The row of a class.
fn class_row(class: u64) -> usize
    ensures is { result ≡ at.class_row «class» }
    ensures within { result ≤ 8 }
{
    class.min(MOST_CLASSES) as usize
}

// The row of a question.
fn refused_row(number: u64) -> usize
    ensures is { result ≡ at.refused_row number }
    ensures within { result ≤ 25 }
{
    number.min(MOST_NUMBERS) as usize
}

impl AddAssign for Five {
    ghost add_assign_gives = { λ old more new. new ≡ at.five_added old more };

    // Those of another message with them, wrapping.
    fn add_assign(&mut self, more: Five) {
        self.sent = self.sent.wrapping_add(more.sent);
        self.deduplicated = self.deduplicated.wrapping_add(more.deduplicated);
        self.partition = self.partition.wrapping_add(more.partition);
        self.loss = self.loss.wrapping_add(more.loss);
        self.fault = self.fault.wrapping_add(more.fault);
    }
}

impl AddAssign for Said {
    ghost add_assign_gives = { λ old more new. new ≡ at.said_added old more };

    // Those of another flush with them, wrapping.
    fn add_assign(&mut self, more: Said) {
        self.rows = self.rows.wrapping_add(more.rows);
        self.delivered = self.delivered.wrapping_add(more.delivered);
        self.dropped = self.dropped.wrapping_add(more.dropped);
    }
}

impl Kinds {
    // One copy more: an original's flag is not 0.
    pub fn count(&mut self, original: u64)
        ensures { self.new ≡ at.counted self.old original }
    {
        if original == 0 {
            self.echoes = self.echoes.wrapping_add(1);
        } else {
            self.originals = self.originals.wrapping_add(1);
        }
    }
}

impl AddAssign for Tally {
    ghost add_assign_gives = { λ old more new. new ≡ at.tally_added old more };

    // Some more of them, wrapping.
    fn add_assign(&mut self, more: Tally) {
        self.deliveries = self.deliveries.wrapping_add(more.deliveries);
        self.bytes = self.bytes.wrapping_add(more.bytes);
    }
}

// Does a row stand behind the one before it, by time, then sequence?
#[tactic(auto, unfolding(crate::specs::Notes::behind))]
fn is_behind(time: u64, sequence: u64, next_time: u64, next_sequence: u64) -> bool
    ensures { result ≡ note.behind time sequence next_time next_sequence }
{
    time < next_time || (time == next_time && sequence < next_sequence)
}

// Has the table n words from b on?
fn has_words(table: &[u64], b: usize, n: usize) -> bool
    requires { n ≤ 64 }
    ensures { result ≡ nat_le (b + n) (length table.now) }
{
    n <= table.len() && b <= table.len() - n
}

impl Figures {
    // A till's figures.
    pub fn till(&self, t: u64) -> &TillFigures
        ensures { result.now ≡ at.till_of self.now t }
    {
        &self.of_tills[till_row(t)]
    }

    // A class's figures.
    pub fn class(&self, class: u64) -> &ClassFigures
        ensures { result.now ≡ at.class_of self.now «class» }
    {
        &self.classes[class_row(class)]
    }

    // How many calls a question refused.
    pub fn refused_by(&self, number: u64) -> u64
        ensures { result ≡ at.refused_of self.now number }
    {
        self.refused[refused_row(number)]
    }

    // The shards of a till.
    fn set_mask(&mut self, t: u64, mask: u64)
        ensures { self.new ≡ note.up_note self.old t mask }
    {
        self.of_tills[till_row(t)].mask = mask;
    }

    // The shards of the first tills, one mask a till.
    fn set_masks(&mut self, masks: &[u64])
        ensures { self.new ≡ note.masked self.old masks.now (length masks.now) }
    {
        for t in 0..masks.len() {
            self.set_mask(t as u64, masks[t]);
        }
    }

    // A new run: tills, a shard mask for each, slots of the log, the sequence at the opening.
    #[tactic(auto, unfolding(crate::specs::Notes::opened_note))]
    pub fn opened(&mut self, tills: u64, masks: &[u64], log: u64, sequence: u64)
        ensures { self.new ≡ note.opened_note tills masks.now log sequence }
    {
        *self = Figures {
            tills,
            log,
            first: sequence,
            last: sequence,
            ..none()
        };
        let n = tills.min(masks.len() as u64) as usize;
        self.set_masks(&masks[..n]);
    }

    // A till is down; gone is how many marks went with it.
    #[tactic(auto, unfolding(crate::specs::Notes::down_note))]
    pub fn went_down(&mut self, t: u64, gone: u64)
        ensures { self.new ≡ note.down_note self.old t gone }
    {
        self.set_mask(t, 0);
        self.down_marks = self.down_marks.wrapping_add(gone);
    }

    // A till is up, with these shards.
    pub fn came_up(&mut self, t: u64, mask: u64)
        ensures { self.new ≡ note.up_note self.old t mask }
    {
        self.set_mask(t, mask);
    }

    // Is t a recipient other than the sender?
    #[tactic(auto, unfolding(crate::specs::Notes::receives))]
    fn receives(&self, from: u64, scope: u64, t: u64) -> bool
        ensures { result ≡ note.receives self.now from scope t }
    {
        if t == from {
            return false;
        }
        if scope == GLOBAL {
            return true;
        }
        scope < 64 && fault_rule::has(self.of_tills[till_row(t)].mask, scope)
    }

    // How many of the first n tills are recipients other than the sender.
    fn recipients_among(&self, from: u64, scope: u64, n: u64) -> u64
        ensures { result ≡ note.recipients_of self.now from scope n }
    {
        let mut count = 0;
        for t in 0..n {
            count += u64::from(self.receives(from, scope, t));
        }
        count
    }

    // The recipients of a message; none where the payload does not open.
    #[tactic(auto, unfolding(crate::specs::Notes::counted_of))]
    fn counted(&self, from: u64, scope: u64, opens: bool) -> u64
        ensures { result ≡ note.counted_of self.now from scope opens }
    {
        if opens {
            self.recipients_among(from, scope, self.tills)
        } else {
            0
        }
    }

    // A message that no number refused: its arguments, its five counts, and the last sequence given then.
    #[tactic(auto, unfolding(crate::specs::Notes::accepted_note))]
    pub fn accepted(&mut self, from: u64, scope: u64, opens: bool, five: Five, sequence: u64)
        ensures { self.new ≡ note.accepted_note self.old from scope opens five sequence }
    {
        let n = self.counted(from, scope, opens);
        self.accepts = self.accepts.wrapping_add(1);
        self.recipients = self.recipients.wrapping_add(n);
        self.five += five;
        self.of_tills[till_row(from)].sent += five;
        self.last = sequence;
    }

    // A call that this number refused.
    #[tactic(auto, unfolding(crate::specs::Notes::refused_note))]
    pub fn refused(&mut self, number: u64)
        ensures { self.new ≡ note.refused_note self.old number }
    {
        let count = &mut self.refused[refused_row(number)];
        *count = count.wrapping_add(1);
    }

    // A row's place in the order of its flush.
    #[tactic(auto, unfolding(crate::specs::Notes::order_note))]
    fn note_order(&mut self, time: u64, sequence: u64)
        ensures { self.new ≡ note.order_note self.old time sequence }
    {
        let late = !is_behind(self.time, self.sequence, time, sequence);
        self.late = self.late.wrapping_add(u64::from(late));
        self.time = time;
        self.sequence = sequence;
    }

    // A delivery of a class.
    #[tactic(auto, unfolding(crate::specs::Notes::class_note))]
    fn note_class(&mut self, class: u64, bytes: u64)
        ensures { self.new ≡ note.class_note self.old «class» bytes }
    {
        let tally = Tally {
            deliveries: 1,
            bytes,
        };
        self.classes[class_row(class)].rows += tally;
    }

    // A copy that landed, and whether a handler took it.
    #[tactic(auto, unfolding(crate::specs::Notes::landed_note))]
    fn note_landed(&mut self, c: Copy, taken: bool)
        ensures { self.new ≡ note.landed_note self.old c taken }
    {
        let d = c.delivery;
        let till = &mut self.of_tills[till_row(d.to)];
        till.received = till.received.wrapping_add(1);
        self.landed.count(c.original);
        self.handled = self.handled.wrapping_add(u64::from(taken));
        self.note_order(d.time, c.sequence);
        self.note_class(d.class, d.wire);
    }

    // A copy that a flush dropped.
    #[tactic(auto, unfolding(crate::specs::Notes::dropped_note))]
    fn note_dropped(&mut self, c: Copy)
        ensures { self.new ≡ note.dropped_note self.old c }
    {
        let d = c.delivery;
        self.dropped.count(c.original);
        let to = &mut self.of_tills[till_row(d.to)];
        to.lost_to = to.lost_to.wrapping_add(1);
        let from = &mut self.of_tills[till_row(d.from)];
        from.lost_from = from.lost_from.wrapping_add(1);
    }

    // A row of a flush, whose words start at b.
    #[tactic(auto, unfolding(crate::specs::Notes::row_note))]
    pub fn row(&mut self, out: &[u64], b: usize)
        ensures { self.new ≡ note.row_note self.old out.now b }
    {
        if !has_words(out, b, ROW) {
            return;
        }
        let c = Copy::get(out, b);
        let taken = out[b + GOSSIP] != 0 || out[b + HOST] != 0;
        self.note_landed(c, taken);
    }

    // A due copy that a flush dropped, whose words start at b.
    #[tactic(auto, unfolding(crate::specs::Notes::drop_note))]
    pub fn drops(&mut self, copies: &[u64], b: usize)
        ensures { self.new ≡ note.drop_note self.old copies.now b }
    {
        if !has_words(copies, b, table_waiting::WIDTH) {
            return;
        }
        let c = Copy::get(copies, b);
        self.note_dropped(c);
    }

    // A copy that waits at the end, whose words start at b. It begins as `drops` does: one function for both would answer an Option that each
    // would match again, in as many lines.
    #[tactic(auto, unfolding(crate::specs::Notes::wait_note, crate::specs::Notes::waiting_note))]
    pub fn waits(&mut self, copies: &[u64], b: usize)
        ensures { self.new ≡ note.wait_note self.old copies.now b }
    {
        if !has_words(copies, b, table_waiting::WIDTH) {
            return;
        }
        let c = Copy::get(copies, b);
        self.waiting.count(c.original);
    }

    // The end of a flush: its own counts, and how many marks went.
    #[tactic(auto, unfolding(crate::specs::Notes::flushed_note))]
    pub fn flushed(&mut self, said: Said, gone: u64)
        ensures { self.new ≡ note.flushed_note self.old said gone }
    {
        self.flushes = self.flushes.wrapping_add(1);
        self.said += said;
        self.flush_marks = self.flush_marks.wrapping_add(gone);
        self.time = 0;
        self.sequence = 0;
    }

    // The log's tallies of a class, as a drain takes them away or as they stand at the end.
    #[tactic(auto, unfolding(crate::specs::Notes::tallied_note))]
    pub fn tallied(&mut self, class: u64, tally: Tally)
        ensures { self.new ≡ note.tallied_note self.old «class» tally }
    {
        self.classes[class_row(class)].logged += tally;
    }

    // How many are in transit to a till at the end, as the reading says.
    #[tactic(auto, unfolding(crate::specs::Notes::transit_note))]
    pub fn in_transit(&mut self, t: u64, n: u64)
        ensures { self.new ≡ note.transit_note self.old t n }
    {
        let till = &mut self.of_tills[till_row(t)];
        till.transit = till.transit.wrapping_add(n);
    }

    // How many marks stand at the end.
    #[tactic(auto, unfolding(crate::specs::Notes::standing_note))]
    pub fn stands(&mut self, marks: u64)
        ensures { self.new ≡ note.standing_note self.old marks }
    {
        self.standing = marks;
    }
}
