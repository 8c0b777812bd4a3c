// The question that refuses a call, each with the number that C is answered. 0 is the answer of a call that no question refuses.
#![tactic(auto)]

ghost use Rattle.std.specs.Prelude.{◌≡◌};
ghost use Rattle.ask_refusal.specs.Refusals.{number_of};

use std::fmt;

// The first question answered "no"; the numbers of `include/gossip.h`, where more is said of each.
#[derive(Clone, Copy, Debug, PartialEq, Eq)]
pub enum Refusal {
    // A lent table or an output.
    Tables = 1,
    // An opening's sizes and names.
    Sizes = 2,
    // An opening's latency, jitter fraction and rates.
    Rates = 3,
    Till = 4,
    // A type, class, shard, scope, tier or mask.
    Range = 5,
    // The bytes of a wire or of an input.
    Length = 6,
    Time = 7,
    // The words that a stream has given.
    Words = 8,
    Sequences = 9,
    SeenSlots = 10,
    WaitingSlots = 11,
    // The places of rules and blocks, and the rules that were ever installed.
    Places = 12,
    Card = 13,
    // The rows of a flush's output.
    Rows = 14,
    Window = 18,
}

impl Refusal {
    // The question's number.
    pub fn number(self) -> u64
        ensures { result ≡ number_of self }
    {
        self as u64
    }
}

impl fmt::Display for Refusal {
    // Why the question was answered "no".
    fn fmt<W: fmt::Write>(&self, f: &mut fmt::Formatter<W>) -> fmt::Result {
        match self {
            Refusal::Tables => write!(
                f,
                "a lent table does not have the opening's size, or an output is too short"
            ),
            Refusal::Sizes => write!(
                f,
                "sizes beyond the limits, or two names or two shard keys alike"
            ),
            Refusal::Rates => write!(f, "a latency, a jitter fraction or a rate out of range"),
            Refusal::Till => write!(f, "a till at or above the till count"),
            Refusal::Range => write!(f, "a type, a class, a shard, a mask or a tier out of range"),
            Refusal::Length => write!(f, "too many bytes"),
            Refusal::Time => write!(f, "now above 2^60"),
            Refusal::Words => write!(f, "a stream has given 2^40 words"),
            Refusal::Sequences => write!(f, "the sequence would pass 4,294,967,295"),
            Refusal::SeenSlots => write!(f, "a selected till has no free seen slot"),
            Refusal::WaitingSlots => write!(
                f,
                "the waiting slots do not take three copies for each selected till"
            ),
            Refusal::Places => write!(
                f,
                "no rule or block place is free, or 4,294,967,295 rules were installed"
            ),
            Refusal::Card => write!(f, "the drop card is not exact"),
            Refusal::Rows => write!(f, "the output has no row for some copy due"),
            Refusal::Window => write!(f, "a window's end is at or before its start"),
        }
    }
}
