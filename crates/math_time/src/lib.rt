// The nanosecond time type, with its constants and constructors, in place of Duration.
#![tactic(auto)]

ghost use Rattle.std.specs.Prelude.{◌≡◌, ◌+◌, ◌*◌, ◌^◌, ◌≤◌, ◌<◌};
ghost use Rattle.std.specs.Float.{binary64};
ghost use Rattle.std.specs.Float.Ieee.{mul};
ghost use Rattle.math_time.specs.Seconds as Seconds;

use std::ops::Add;

// A time, or a length of time, in whole nanoseconds.
#[derive(Clone, Copy, Debug, PartialEq, Eq, PartialOrd, Ord)]
pub struct Time {
    pub ns: u64,
}

impl Time {
    // No time at all.
    pub const ZERO: Time = Time { ns: 0 };

    // A thousandth of a second.
    pub const MILLISECOND: Time = Time { ns: 1_000_000 };

    // A second.
    pub const SECOND: Time = Time { ns: 1_000_000_000 };

    // So many nanoseconds.
    pub fn from_nanos(ns: u64) -> Time
        ensures { result.ns ≡ ns }
    {
        Time { ns }
    }

    // So many milliseconds.
    pub fn from_millis(ms: u64) -> Time
        requires { ms ≤ 2 ^ 40 }
        ensures { result.ns ≡ ms * Seconds.millisecond }
    {
        Time {
            ns: ms * Time::MILLISECOND.ns,
        }
    }

    // Whole seconds plus nanoseconds / 10^9.
    pub fn as_secs_f64(self) -> f64
        ensures { result ≡ Seconds.seconds self.ns }
    {
        seconds(self.ns)
    }

    // The nearest nanosecond, ties to even.
    pub fn from_secs_f64(x: f64) -> Time
        requires { Seconds.InRange x }
        ensures { (result.ns ≡ Seconds.nanos x) × (Seconds.millisecond ≤ result.ns) × (result.ns ≤ 2 ^ 26 * Seconds.second) }
    {
        Time { ns: nanos(x) }
    }

    // This time in seconds, times a float.
    pub fn mul_f64(self, by: f64) -> Time
        requires { Seconds.InRange (mul binary64 by (Seconds.seconds self.ns)) }
        ensures { (result.ns ≡ Seconds.times self.ns by) × (Seconds.millisecond ≤ result.ns) × (result.ns ≤ 2 ^ 26 * Seconds.second) }
    {
        Time::from_secs_f64(by * self.as_secs_f64())
    }
}

impl Add for Time {
    type Output = Time;

    ghost can_add = { λ a b. a.ns + b.ns < 2 ^ 64 };

    ghost add_gives = { λ a b r. r.ns ≡ a.ns + b.ns };

    // The sum of two lengths of time.
    fn add(self, more: Time) -> Time {
        Time {
            ns: self.ns + more.ns,
        }
    }
}

// A time in seconds.
fn seconds(ns: u64) -> f64
    ensures { result ≡ Seconds.seconds ns }
{
    let whole = (ns / Time::SECOND.ns) as f64;
    let rest = (ns % Time::SECOND.ns) as f64;
    whole + rest / (Time::SECOND.ns as f64)
}

// digits * 10^9 / 2^(drop + 26), to the nearest whole number, ties to even. The product has up to 83 bits,
// so it is made by halves: it is whole * 2^26 + rest.
fn rounded(digits: u64, drop: u64) -> u64
    requires digits_bound { digits < 2 ^ 53 }
    requires drop_nonzero { (0 < drop) × (drop < 63) }
    ensures { result ≡ Seconds.nearest_even (digits * Seconds.second) (2 ^ (drop + 26)) }
{
    let low = (digits & 0x3ff_ffff) * Time::SECOND.ns;
    let whole = (digits >> 26) * Time::SECOND.ns + (low >> 26);
    let rest = low & 0x3ff_ffff;
    let unit = 1u64 << drop;
    let half = unit >> 1;
    let kept = whole >> drop;
    let cut = whole & (unit - 1);
    if cut < half {
        return kept;
    }
    if half < cut {
        return kept + 1;
    }
    if 0 < rest {
        return kept + 1;
    }
    kept + kept % 2
}

// The nanoseconds of x seconds, from x's bits: x is digits * 2^(exponent - 1075).
fn nanos(x: f64) -> u64
    requires { Seconds.InRange x }
    ensures { (result ≡ Seconds.nanos x) × (Seconds.millisecond ≤ result) × (result ≤ 2 ^ 26 * Seconds.second) }
{
    let bits = f64::to_bits(x);
    let exponent = bits >> 52;
    let digits = (bits & 0xf_ffff_ffff_ffff) | 0x10_0000_0000_0000;
    rounded(digits, 1049 - exponent)
}
