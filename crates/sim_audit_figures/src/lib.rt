// The figures of an audit, for its page: the same notes are taken of each recorded answer and of each answer of the book, for either side.
// They print the page; the verdict does not come from them.
#![tactic(auto)]

mod copies;
mod numbers;
pub mod side;

ghost use Rattle.std.specs.Prelude.{◌≡◌};

use numbers::field;
use side::Side;

// The figures of both sides.
#[derive(Debug, Drop)]
pub struct Figures {
    pub recorded: Side,
    pub book: Side,
    // The number behind the name of the last call: the sender of an accept, the now of a flush.
    first: u64,
}

impl Figures {
    // Nothing is noted.
    pub fn new() -> Figures {
        Figures {
            recorded: Side::new(),
            book: Side::new(),
            first: 0,
        }
    }

    // A call, as it is recorded behind `>`.
    pub fn called(&mut self, told: &[u8])
        ensures recorded { self.new.recorded ≡ self.old.recorded }
        ensures book { self.new.book ≡ self.old.book }
    {
        self.first = field(told, 2);
    }

    // A recorded answer to the last call.
    pub fn answered(&mut self, told: &[u8])
        ensures { self.new.book ≡ self.old.book }
    {
        self.recorded.note(told, self.first);
    }

    // The book's answers to the last call.
    pub fn booked(&mut self, book: &[u8])
        ensures { self.new.recorded ≡ self.old.recorded }
    {
        for line in book.split(|b| *b == b'\n') {
            self.book.note(line, self.first);
        }
    }
}
