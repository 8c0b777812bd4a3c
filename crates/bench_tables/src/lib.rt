// The tables as C functions, for the benchmark: each tests what its table asks of lengths, counts and heads; where they do not fit it answers
// number 1, and leaves every table as found.
#![tactic(auto)]

ghost use Rattle.std.specs.Prelude.{◌≡◌};
ghost use Rattle.bench_tables.specs.Answers.{valued, not_fit, bit};

mod logs;
mod marks;
mod rings;
mod waiting;

// 0, and the call's value; or 1, and value 0.
#[repr(C)]
#[derive(Clone, Copy)]
pub struct Told {
    pub number: u64,
    pub value: u64,
}

// What is lent does not fit.
fn unfit() -> Told
    ensures { result ≡ not_fit }
{
    Told {
        number: 1,
        value: 0,
    }
}

// A call that was made.
fn valued(value: u64) -> Told
    ensures { result ≡ valued value }
{
    Told { number: 0, value }
}

// A test's answer: 1 for yes, 0 for no.
fn yes_or_no(b: bool) -> Told
    ensures { result ≡ valued (bit b) }
{
    valued(u64::from(b))
}
