// The figures of one side: of the recorded answers, or of the book's. They wrap.
ghost use Rattle.std.specs.Prelude.{◌≡◌, ◌-◌, min};

use crate::copies::{CopyTold, is_original, recipients_of};
use crate::numbers::{behind_sign, field, value, word_at};
use sim_figures::{Five, Kinds, Said, Tally};

// Tills that have figures of their own, and classes; a larger number counts as the last.
pub const TILLS: usize = 64;

pub const CLASSES: usize = 8;

// The figures of a till.
#[derive(Clone, Copy, Debug, PartialEq, Eq, Default, Drop)]
pub struct Till {
    // Of its own messages; copies that it received; copies to it that a flush dropped.
    pub recipients: Five,
    pub received: Kinds,
    pub lost: u64,
}

// The figures of one side.
#[derive(Debug, Drop)]
pub struct Side {
    pub recipients: Five,
    pub landed: Kinds,
    pub dropped: Kinds,
    pub waiting: Kinds,
    pub said: Said,
    // Rows out of order, rows that an earlier flush should have had, copies to their own sender, marks, copies in transit.
    pub late: u64,
    pub put_off: u64,
    pub to_sender: u64,
    pub marks: u64,
    pub transit: u64,
    // Time and sequence of the flush's last row, 0 before the first; its now and that of the flush before.
    last: (u64, u64),
    now: u64,
    before: u64,
    // Of each class, by the rows and by the tallies.
    pub classes: [Tally; CLASSES],
    pub tallies: [Tally; CLASSES],
    pub tills: [Till; TILLS],
    // Of each link the copies that flushes dropped.
    pub links: [[u64; TILLS]; TILLS],
}

// The place of a till.
fn till_at(number: u64) -> usize
    ensures { result ≡ min number (TILLS - 1) }
{
    number.min(TILLS as u64 - 1) as usize
}

// Was an accept or a flush refused?
fn is_refused(line: &[u8]) -> bool {
    matches!(word_at(line, 1), b"refused")
}

impl Side {
    // Nothing is noted.
    pub(crate) fn new() -> Side {
        Side {
            recipients: Five::default(),
            landed: Kinds::default(),
            dropped: Kinds::default(),
            waiting: Kinds::default(),
            said: Said::default(),
            late: 0,
            put_off: 0,
            to_sender: 0,
            marks: 0,
            transit: 0,
            last: (0, 0),
            now: 0,
            before: 0,
            classes: [Tally::default(); CLASSES],
            tallies: [Tally::default(); CLASSES],
            tills: [Till::default(); TILLS],
            links: [[0; TILLS]; TILLS],
        }
    }

    // Accept's five counts, also of the till that sent.
    fn accepted(&mut self, line: &[u8], sender: u64) {
        if is_refused(line) {
            return;
        }
        let counts = recipients_of(line);
        self.recipients += counts;
        self.tills[till_at(sender)].recipients += counts;
    }

    // A flush: its own counts, and a new order.
    fn flushed(&mut self, line: &[u8], now: u64) {
        if is_refused(line) {
            return;
        }
        self.before = self.now;
        self.now = now;
        self.last = (0, 0);
        self.said += Said {
            delivered: field(line, 1),
            dropped: field(line, 2),
            rows: field(line, 3),
        };
    }

    // A row's place in the order.
    fn ordered(&mut self, time: u64, sequence: u64) {
        if (time, sequence) <= self.last {
            self.late = self.late.wrapping_add(1);
        }
        if time <= self.before {
            self.put_off = self.put_off.wrapping_add(1);
        }
        self.last = (time, sequence);
    }

    // A copy to its own sender.
    fn returned(&mut self, copy: CopyTold) {
        if copy.from == copy.to {
            self.to_sender = self.to_sender.wrapping_add(1);
        }
    }

    // A row: a copy that landed.
    fn landed(&mut self, copy: CopyTold) {
        self.landed.count(u64::from(copy.is_original));
        self.classes[copy.class.min(CLASSES as u64 - 1) as usize] += Tally {
            deliveries: 1,
            bytes: copy.bytes,
        };
        self.tills[till_at(copy.to)]
            .received
            .count(u64::from(copy.is_original));
        self.ordered(copy.delivered, copy.sequence);
        self.returned(copy);
    }

    // A copy that a flush dropped.
    fn dropped(&mut self, copy: CopyTold) {
        self.dropped.count(u64::from(copy.is_original));
        let till = &mut self.tills[till_at(copy.to)];
        till.lost = till.lost.wrapping_add(1);
        let link = &mut self.links[till_at(copy.from)][till_at(copy.to)];
        *link = link.wrapping_add(1);
        self.returned(copy);
    }

    // The tallies of a drain: of each class deliveries and bytes, one pair behind the other.
    fn drained(&mut self, line: &[u8]) {
        let list = behind_sign(word_at(line, 3)).unwrap_or(b"");
        let mut numbers = list.split(|b| matches!(*b, b':' | b','));
        for tally in self.tallies.iter_mut() {
            *tally += Tally {
                deliveries: numbers.next().map_or(0, value),
                bytes: numbers.next().map_or(0, value),
            };
        }
    }

    // An answer; `first` is the number behind the call's name: the sender of an accept, the now of a flush.
    pub(crate) fn note(&mut self, line: &[u8], first: u64) {
        match word_at(line, 0) {
            b"row" => self.landed(CopyTold::of(line)),
            b"drop" => self.dropped(CopyTold::of(line)),
            b"accept" => self.accepted(line, first),
            b"flush" => self.flushed(line, first),
            b"copy" => self.waiting.count(u64::from(is_original(line))),
            b"seen" => self.marks = self.marks.wrapping_add(field(line, 2)),
            b"transit" => self.transit = self.transit.wrapping_add(field(line, 1)),
            b"drain" => self.drained(line),
            b"open" => self.now = 0,
            _ => {}
        }
    }
}
