// The replies of the calls that answer at most one number, as C gets them: first the number of the question that refused the call, 0 where none did.
// A call itself answers a Result, and each kind of Result has one conversion here: it alone writes numbers, for C.
#![tactic(auto)]

ghost use Rattle.std.specs.Prelude.{◌≡◌};
ghost use Rattle.call_reply.specs.Reply.{refused_by, answered_by, done_reply, value_reply, found_reply, test_reply};

use ask_refusal::Refusal;

// The reply of a call that answers nothing else.
#[repr(C)]
#[derive(Clone, Copy)]
pub struct Done {
    pub number: u64,
}

// A number, and whether there is one (1 or 0).
#[repr(C)]
#[derive(Clone, Copy, Default)]
pub struct Value {
    pub number: u64,
    pub found: u64,
    pub value: u64,
}

// The reply of a call that a question refused: its number, and zeros.
pub fn refused(number: u64) -> Value
    ensures { result ≡ refused_by number }
{
    Value {
        number,
        ..Value::default()
    }
}

// The reply of a call that no question refused and that has a number to give.
pub fn answered(value: u64) -> Value
    ensures { result ≡ answered_by value }
{
    Value {
        number: 0,
        found: 1,
        value,
    }
}

impl From<Result<(), Refusal>> for Done {
    ghost from_gives = { λ r d. d ≡ done_reply r };

    // The number alone.
    fn from(outcome: Result<(), Refusal>) -> Done {
        match outcome {
            Ok(()) => Done { number: 0 },
            Err(refusal) => Done {
                number: refusal.number(),
            },
        }
    }
}

impl From<Result<u64, Refusal>> for Value {
    ghost from_gives = { λ r v. v ≡ value_reply r };

    // A number that there is.
    fn from(outcome: Result<u64, Refusal>) -> Value {
        match outcome {
            Ok(value) => answered(value),
            Err(refusal) => refused(refusal.number()),
        }
    }
}

impl From<Result<Option<u64>, Refusal>> for Value {
    ghost from_gives = { λ r v. v ≡ found_reply r };

    // A number that there may be. Where there is none, no question refused and nothing is found: three zeros, which are `refused(0)`.
    fn from(outcome: Result<Option<u64>, Refusal>) -> Value {
        match outcome {
            Ok(Some(value)) => answered(value),
            Ok(None) => refused(0),
            Err(refusal) => refused(refusal.number()),
        }
    }
}

impl From<Result<bool, Refusal>> for Value {
    ghost from_gives = { λ r v. v ≡ test_reply r };

    // 1 or 0.
    fn from(outcome: Result<bool, Refusal>) -> Value {
        match outcome {
            Ok(holds) => answered(u64::from(holds)),
            Err(refusal) => refused(refusal.number()),
        }
    }
}
