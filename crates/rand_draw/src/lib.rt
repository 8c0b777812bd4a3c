// The draw rules over a stream's cursor, which each draw moves: fraction, real range, hit against a rate, whole range of n values.
// How far below 2^63 the count must be stands at each draw: how many words it may take differs, so no invariant of the cursor says it.
// So does `0 < n`: a NonZero would be made anew at each call, of a number that the caller knows to be above 0.
#![tactic(auto)]

ghost use Rattle.std.specs.Prelude.{◌≡◌, ◌+◌, ◌*◌, ◌<◌, ◌≤◌, ◌^◌};
ghost use Rattle.rand_streams.specs.Streams.{Moved};
ghost use Rattle.rand_draw.specs.Fraction as Fraction;
ghost use Rattle.rand_draw.specs.Real as Real;
ghost use Rattle.rand_draw.specs.Draw.{whole64_at, words64_at, whole32_at, words32_at};

use math_word::{Halves, low_half, product};
use rand_streams::Cursor;

// The fraction of a 64-bit draw: its top 53 bits, times 2^-53.
pub fn fraction(draw: u64) -> f64
    ensures { result ≡ Fraction.fraction draw }
{
    ((draw >> 11) as f64) * 1.1102230246251565e-16
}

// The next fraction.
pub fn draw_fraction(c: &mut Cursor) -> f64
    requires { c.old.count + 1 < 2 ^ 63 }
    ensures { (result ≡ Fraction.fraction_at c.old.key c.old.count) × Moved c.old 2 c.new }
{
    fraction(c.draw64())
}

// The number of the range low..high for a 64-bit draw: its top 52 bits, times 2^-52, times high - low, plus low.
pub fn real_of(low: f64, high: f64, draw: u64) -> f64
    ensures { result ≡ Real.real_of low high draw }
{
    ((draw >> 12) as f64) * 2.220446049250313e-16 * (high - low) + low
}

// The next number of the range low..high: one draw, which is below high inside document 01's limits.
pub fn draw_real(c: &mut Cursor, low: f64, high: f64) -> f64
    requires { c.old.count + 1 < 2 ^ 63 }
    ensures { (result ≡ Real.real_at c.old.key c.old.count low high) × Moved c.old 2 c.new }
{
    real_of(low, high, c.draw64())
}

// A loss, spike, duplicate or replay draw: made only where the rate is above 0; a hit where it is below the rate.
pub fn hits(c: &mut Cursor, rate: f64) -> bool
    requires { c.old.count + 1 < 2 ^ 63 }
    ensures { (result ≡ Fraction.hits_at c.old.key c.old.count rate) × Moved c.old (Fraction.hit_words rate) c.new }
{
    rate > 0.0 && draw_fraction(c) < rate
}

// One of n values, from draws of 64 bits.
pub fn whole64(c: &mut Cursor, n: u64) -> u64
    requires { (0 < n) × (c.old.count + 3 < 2 ^ 63) }
    ensures { (result ≡ whole64_at c.old.key c.old.count n) × Moved c.old (words64_at c.old.key c.old.count n) c.new × (result < n) }
{
    let first = c.draw64();
    let Halves { high, low } = product(first, n);
    if low <= u64::MAX - (n - 1) {
        return high;
    }
    let second = c.draw64();
    let q = product(second, n);
    let more = q.high;
    if more <= u64::MAX - low {
        return high;
    }
    high + 1
}

// One of n values, from draws of 32 bits.
pub fn whole32(c: &mut Cursor, n: u32) -> u32
    requires { (0 < n) × (c.old.count + 1 < 2 ^ 63) }
    ensures { (result ≡ whole32_at c.old.key c.old.count n) × Moved c.old (words32_at c.old.key c.old.count n) c.new × (result < n) }
{
    let first = c.draw32();
    let p = (first as u64) * (n as u64);
    let high = (p >> 32) as u32;
    let low = low_half(p);
    if low <= 4294967296 - n as u64 {
        return high;
    }
    let second = c.draw32();
    let more = ((second as u64) * (n as u64)) >> 32;
    if low + more < 4294967296 {
        return high;
    }
    high + 1
}

// low plus one of n values.
pub fn range64(c: &mut Cursor, low: u64, n: u64) -> u64
    requires { (0 < n) × (low + n ≤ 2 ^ 64) × (c.old.count + 3 < 2 ^ 63) }
    ensures { (result ≡ low + whole64_at c.old.key c.old.count n) × Moved c.old (words64_at c.old.key c.old.count n) c.new × (result < low + n) × (c.new.count ≤ c.old.count + 4) }
{
    low + whole64(c, n)
}
