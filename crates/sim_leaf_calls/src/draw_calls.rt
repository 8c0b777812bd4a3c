// Draws on a stream record of its own, the digest, and seconds: they need no network.
ghost use Rattle.std.specs.Prelude.{◌<◌, ◌^◌, IsTrue};
ghost use Rattle.math_time.specs.Seconds.{InRange};

use ask_refusal::Refusal;
use math_time::Time;
use rand_streams::Cursor;
use sim_answers::hexes;
use sim_outcome::{Outcome, refused};
use sim_printer::Printer;
use sim_script::{Draw, Draws, Seconds};

// No stream of a script comes this far, 2^60 words.
const END: u64 = 1152921504606846976;

// The bits of a float that is no NaN.
fn bits_of(x: f64) -> u64 {
    if x.is_nan() {
        return 0;
    }
    f64::to_bits(x)
}

// From `from` up to `to`, both of them; 0 where there is none.
fn whole(c: &mut Cursor, from: u64, to: u64) -> u64
    requires { c.old.count < 2 ^ 60 }
{
    if to < from {
        return 0;
    }
    let more = to - from;
    if more == u64::MAX {
        return c.draw64();
    }
    rand_draw::range64(c, from, more + 1)
}

// Below n: 32 bits where n has no more; 0 where there is none.
fn index(c: &mut Cursor, n: u64) -> u64
    requires { c.old.count < 2 ^ 60 }
{
    if n == 0 {
        return 0;
    }
    match u32::try_from(n) {
        Ok(small) => u64::from(rand_draw::whole32(c, small)),
        Err(_) => rand_draw::whole64(c, n),
    }
}

// The next value; 0, and no word, from the end of the stream on.
fn draw(what: Draw, c: &mut Cursor) -> u64 {
    if END <= c.count {
        return 0;
    }
    match what {
        Draw::Word => u64::from(c.draw32()),
        Draw::Long => c.draw64(),
        Draw::Fraction => bits_of(rand_draw::draw_fraction(c)),
        Draw::Real { from, to } => {
            let low = math_float::of_any(from);
            let high = math_float::of_any(to);
            bits_of(rand_draw::draw_real(c, low, high))
        }
        Draw::Whole { from, to } => whole(c, from, to),
        Draw::Index { below } => index(c, below),
    }
}

// Digits of 32 and of 64 bits.
const WORD: usize = 8;

const LONG: usize = 16;

// A space and a value: hexadecimal but for whole numbers.
fn shown(page: &mut Printer, what: Draw, value: u64) {
    page.text(b" ");
    match what {
        Draw::Word => page.hex(value, WORD),
        Draw::Whole { .. } | Draw::Index { .. } => page.decimal(value),
        _ => page.hex(value, LONG),
    }
}

// What is drawn.
fn name(what: Draw) -> &'static str {
    match what {
        Draw::Word => "word",
        Draw::Long => "long",
        Draw::Fraction => "fraction",
        Draw::Real { .. } => "real",
        Draw::Whole { .. } => "whole",
        Draw::Index { .. } => "index",
    }
}

// Has the range that a draw is made in a value?
fn is_range(what: Draw) -> bool {
    match what {
        Draw::Real { from, to } => math_float::of_any(from) < math_float::of_any(to),
        Draw::Whole { from, to } => from <= to,
        Draw::Index { below } => 0 < below,
        _ => true,
    }
}

// The draws of a call, each behind the one before.
pub fn draws(call: Draws, page: &mut Printer) -> Outcome {
    let what = call.draw;
    if !is_range(what) {
        return Outcome::Bad;
    }
    if ask_tables::MOST_WORDS <= call.count {
        return refused(page, b"draw", Refusal::Words);
    }
    page.text(b"draw ");
    page.text(name(what).as_bytes());
    let mut c = Cursor::at(call.key, call.count);
    for _ in 0..call.times {
        let value = draw(what, &mut c);
        shown(page, what, value);
    }
    page.ended(b" words=", c.count);
    Outcome::Done
}

// The digest of so many bytes.
pub fn digest(input: &[u8], page: &mut Printer) -> Outcome {
    match hash_digest::digest(input) {
        Ok(words) => {
            page.text(b"digest ");
            hexes(page, words);
            page.text(b"\n");
            Outcome::Done
        }
        Err(_) => refused(page, b"digest", Refusal::Length),
    }
}

// Seconds, by their bits.
fn bits_call(page: &mut Printer, bits: u64) -> Outcome {
    page.text(b"secs ");
    page.hex(bits, LONG);
    page.text(b"\n");
    Outcome::Done
}

// Do these seconds become nanoseconds here? From 0.001 up, below 2^26.
fn in_range(x: f64) -> bool
    ensures { IsTrue result → InRange x }
{
    x >= 0.001 && x < 67108864.0
}

// Seconds that become nanoseconds.
fn nanos_call(x: f64, page: &mut Printer) -> Outcome {
    if !in_range(x) {
        return Outcome::Bad;
    }
    let t = Time::from_secs_f64(x);
    page.ended(b"nanos ", t.ns);
    Outcome::Done
}

// A time, multiplied; the product has the same range.
fn times_call(t: Time, by: f64, page: &mut Printer) -> Outcome {
    if !in_range(by * t.as_secs_f64()) {
        return Outcome::Bad;
    }
    let r = t.mul_f64(by);
    page.ended(b"times ", r.ns);
    Outcome::Done
}

// Seconds that become nanoseconds, and nanoseconds that become seconds.
pub fn seconds(call: Seconds, page: &mut Printer) -> Outcome {
    match call {
        Seconds::Nanos { seconds } => nanos_call(math_float::of_any(seconds), page),
        Seconds::Secs { ns } => bits_call(page, bits_of(Time::from_nanos(ns).as_secs_f64())),
        Seconds::Times { ns, by } => times_call(Time::from_nanos(ns), math_float::of_any(by), page),
    }
}
