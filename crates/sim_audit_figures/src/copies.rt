// What an answer tells of a copy, and of a message's recipients.
use crate::numbers::{field, word_at};
use sim_figures::Five;

// A copy, as a row, a drop or a line of the waiting tells of it.
#[derive(Clone, Copy, Debug, PartialEq, Eq, Drop)]
pub(crate) struct CopyTold {
    pub(crate) from: u64,
    pub(crate) to: u64,
    pub(crate) class: u64,
    pub(crate) delivered: u64,
    pub(crate) bytes: u64,
    pub(crate) sequence: u64,
    pub(crate) is_original: bool,
}

// Is the copy an original? An echo has a dash for an id.
pub(crate) fn is_original(line: &[u8]) -> bool {
    !matches!(word_at(line, 10), b"-")
}

impl CopyTold {
    // The copy that a line tells of.
    pub(crate) fn of(line: &[u8]) -> CopyTold {
        CopyTold {
            from: field(line, 1),
            to: field(line, 2),
            class: field(line, 4),
            delivered: field(line, 6),
            bytes: field(line, 8),
            sequence: field(line, 9),
            is_original: is_original(line),
        }
    }
}

// The counts of an accept's answer.
pub(crate) fn recipients_of(line: &[u8]) -> Five {
    Five {
        sent: field(line, 1),
        deduplicated: field(line, 2),
        partition: field(line, 3),
        loss: field(line, 4),
        fault: field(line, 5),
    }
}
