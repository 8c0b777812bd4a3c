// The account of an audit: what is noted of each line of the recording, and the verdict.
#![tactic(auto)]

pub mod words;

ghost use Rattle.std.specs.Prelude.{◌≡◌};
ghost use Rattle.sim_audit_account.specs.Account as is;

use words::Words;

// The figures of an audit so far; they wrap.
#[derive(Debug, Drop)]
pub struct Account {
    // Lines of the recording, calls played, answers compared, differences, lines that are no calls.
    pub lines: u64,
    pub calls: u64,
    pub answers: u64,
    pub differ: u64,
    pub bad: u64,
    // The line of the first call whose answers differ, and of the last call.
    pub first: Option<u64>,
    pub call: Option<u64>,
    // How much of the book's answers to the last call was compared.
    pub read: usize,
    // The last call's words.
    pub words: Words,
}

impl Account {
    // Before the first line.
    pub fn new() -> Account
        ensures { result ≡ is.nothing }
    {
        Account {
            lines: 0,
            calls: 0,
            answers: 0,
            differ: 0,
            bad: 0,
            first: None,
            call: None,
            read: 0,
            words: Words::of(b""),
        }
    }

    // A line of the recording.
    pub fn line(&mut self)
        ensures { self.new ≡ is.line_note self.old }
    {
        self.lines = self.lines.wrapping_add(1);
    }

    // It is a call, with these words.
    pub fn call(&mut self, words: &[u8])
        ensures { self.new ≡ is.call_note self.old words.now }
    {
        self.call = Some(self.lines);
        self.read = 0;
        self.words = Words::of(words);
    }

    // The call was played.
    pub fn played(&mut self)
        ensures { self.new ≡ is.played_note self.old }
    {
        self.calls = self.calls.wrapping_add(1);
    }

    // It is no call that the book knows.
    pub fn bad(&mut self)
        ensures { self.new ≡ is.bad_note self.old }
    {
        self.bad = self.bad.wrapping_add(1);
    }

    // An answer differs, is one too many, or is missing.
    pub fn differs(&mut self)
        ensures { self.new ≡ is.differ_note self.old }
    {
        self.differ = self.differ.wrapping_add(1);
        self.first = self.first.or(self.call);
    }

    // An answer was compared, and the book's answers up to `next` with it.
    pub fn answered(&mut self, is_same: bool, next: usize)
        ensures { self.new ≡ is.answer_note self.old is_same next }
    {
        self.answers = self.answers.wrapping_add(1);
        self.read = next;
        if !is_same {
            self.differs();
        }
    }

    // The verdict.
    pub fn passes(&self) -> bool
        ensures { result ≡ is.passed self.now }
    {
        self.calls != 0 && self.first.is_none() && self.differ == 0 && self.bad == 0
    }
}
