// The latency of one delivery, as `sample_latency`: jitter, floor, nanoseconds, transmission, spike.
// How far below 2^63 the count must be stands at each function, as in rand_draw: a jitter takes two words at most, a delivery six, so no invariant of the cursor says it.
#![tactic(auto)]

ghost use Rattle.std.specs.Prelude.{◌≡◌, ◌+◌, ◌<◌, ◌≤◌, ◌^◌};
ghost use Rattle.rand_streams.specs.Streams.{Moved, word_pair};
ghost use Rattle.math_time.specs.Seconds.{seconds};
ghost use Rattle.link_latency.specs.Latency.{jitter_of, jitter_words, floored, delay_of, latency_at, latency_words, shortest, longest_delay, longest};
ghost use Rattle.link_latency.specs.Admitted.{Admitted, latency_admitted, fraction_admitted, rate_admitted, longest_transmission};

use math_time::Time;
use rand_draw::{draw_real, hits};
use rand_streams::Cursor;

// Question 3, of the latency: at most 60 s.
pub fn latency_admitted(latency: Time) -> bool
    ensures { result ≡ latency_admitted latency.ns }
{
    latency.ns <= 60 * Time::SECOND.ns
}

// Question 3, of the jitter fraction: 0, or 2^-20 to 1; NaN is not.
pub fn fraction_admitted(fraction: f64) -> bool
    ensures { result ≡ fraction_admitted fraction }
{
    fraction == 0.0 || (fraction >= 9.5367431640625e-7 && fraction <= 1.0)
}

// Question 3, of a rate: 0 to 1; NaN is not.
pub fn rate_admitted(rate: f64) -> bool
    ensures { result ≡ rate_admitted rate }
{
    rate >= 0.0 && rate <= 1.0
}

// The jitter of a base of s seconds: drawn in -j..j, and not drawn if j is 0.
fn jitter(c: &mut Cursor, s: f64, fraction: f64) -> f64
    requires { c.old.count + 1 < 2 ^ 63 }
    ensures { (result ≡ jitter_of s fraction (word_pair c.old.key c.old.count)) × Moved c.old (jitter_words s fraction) c.new }
{
    let j = s * fraction;
    if j > 0.0 {
        return draw_real(c, -j, j);
    }
    0.0
}

// At least 0.001.
fn at_least(x: f64) -> f64
    ensures { result ≡ floored x }
{
    if x < 0.001 { 0.001 } else { x }
}

// The latency before transmission.
fn delay(c: &mut Cursor, base: Time, fraction: f64) -> Time
    requires { Admitted base.ns fraction × (c.old.count + 1 < 2 ^ 63) }
    ensures { (result.ns ≡ delay_of base.ns fraction (word_pair c.old.key c.old.count)) × Moved c.old (jitter_words (seconds base.ns) fraction) c.new
        × (shortest ≤ result.ns) × (result.ns ≤ longest_delay) }
{
    let s = base.as_secs_f64();
    let j = jitter(c, s, fraction);
    Time::from_secs_f64(at_least(s + j))
}

// The latency of a delivery: its base with jitter, its transmission, and with this rate a spike.
pub fn sample_latency(
    c: &mut Cursor,
    base: Time,
    fraction: f64,
    rate: f64,
    transmission: Time,
) -> Time
    requires { Admitted base.ns fraction × (transmission.ns ≤ longest_transmission) × (c.old.count + 5 < 2 ^ 63) }
    ensures { (result.ns ≡ latency_at c.old.key c.old.count base.ns fraction rate transmission.ns) × Moved c.old (latency_words c.old.key c.old.count base.ns fraction rate) c.new
        × (shortest ≤ result.ns) × (result.ns ≤ longest) }
{
    let drawn = delay(c, base, fraction);
    let plain = drawn + transmission;
    if hits(c, rate) {
        let by = draw_real(c, 10.0, 50.0);
        return plain.mul_f64(by);
    }
    plain
}
