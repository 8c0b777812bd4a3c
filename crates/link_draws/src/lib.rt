// Draws by an opening's settings: where a link's stream and the fault stream stand, a rate's hit, an index, and a latency.
// How far below 2^63 the count must be stands at each draw, as in rand_draw: a hit takes two words at most, a latency six, so no invariant of the cursor says it.
// `0 < n` at an index is rand_draw's: a NonZero would be made anew at each call, of a number that the caller knows to be above 0.
#![tactic(auto)]

ghost use Rattle.std.specs.Prelude.{◌≡◌, ◌+◌, ◌*◌, ◌^◌, ◌%◌, ◌<◌, ◌≤◌, length, take, drop};
ghost use Rattle.link_geography.specs.Geography.{Stands};
ghost use Rattle.spec_network.specs.Opening.{most_tills};
ghost use Rattle.spec_network.specs.Tables.{cell, settings_at};
ghost use Rattle.spec_network.specs.Limits.{rate_of};
ghost use Rattle.spec_network.specs.Real.{key_width, key_of, fault_key_of, region_at, cost_at};
ghost use Rattle.link_draws.specs.Drawing.{Priced, Sent, Struck, Picked, Delayed};

use ask_tables::{FAULT_KEY, cell};
use link_geography::Cost;
use math_time::Time;
use rand_streams::Cursor;

// The words of a key.
const KEY: usize = ask_tables::LINK_KEY_WIDTH as usize;

// The low 32 bits, by the remainder that the definition names: `math_word::low_half(x) as u32` is no shorter, and no draw comes through here.
fn low(x: u64) -> u32
    ensures { result ≡ x % 2 ^ 32 }
{
    (x % 4294967296) as u32
}

// The rate that is kept in cell i.
pub fn rate(setup: &[u64], i: usize) -> f64
    ensures { result ≡ rate_of (cell setup.now i) }
{
    math_float::of_any(cell(setup, i))
}

// The key whose words start at b.
fn key_at(keys: &[u32], b: usize) -> [u32; 8]
    requires { b + key_width ≤ length keys.now }
    ensures { result ≡ take key_width (drop b keys.now) }
{
    let mut key = [0; 8];
    let words = &mut key[..];
    words.copy_from_slice(&keys[b..b + KEY]);
    key
}

// The fault stream's key, cell by cell: an iterator's words would have to be collected, and there is no heap here.
fn fault_key(setup: &[u64]) -> [u32; 8]
    ensures { result ≡ fault_key_of (settings_at setup.now).fault_key }
{
    [
        low(cell(setup, FAULT_KEY)),
        low(cell(setup, FAULT_KEY + 1)),
        low(cell(setup, FAULT_KEY + 2)),
        low(cell(setup, FAULT_KEY + 3)),
        low(cell(setup, FAULT_KEY + 4)),
        low(cell(setup, FAULT_KEY + 5)),
        low(cell(setup, FAULT_KEY + 6)),
        low(cell(setup, FAULT_KEY + 7)),
    ]
}

// The link's stream at a word count. `tills ≤ most_tills` is asked beside the tills themselves: a type of theirs would be made anew from the settings at each call.
pub fn link_at(keys: &[u32], tills: usize, from: usize, to: usize, count: u64) -> Cursor
    requires { («from» < tills) × (to < tills) × (tills ≤ most_tills) × (length keys.now ≡ tills * tills * key_width) }
    ensures { Stands (key_of tills keys.now «from» to) count result }
{
    let key = key_at(keys, (from * tills + to) * KEY);
    Cursor::at(key, count)
}

// The fault stream at a word count.
pub fn fault_at(setup: &[u64], count: u64) -> Cursor
    ensures { Stands (fault_key_of (settings_at setup.now).fault_key) count result }
{
    let key = fault_key(setup);
    Cursor::at(key, count)
}

// A draw for the rate in cell i, made only where it is above 0.
pub fn chance(setup: &[u64], i: usize, c: &mut Cursor) -> bool
    requires { c.old.count + 1 < 2 ^ 63 }
    ensures { Struck (cell setup.now i) c.old result c.new }
{
    rand_draw::hits(c, rate(setup, i))
}

// A ring index below n.
pub fn index(c: &mut Cursor, n: u32) -> u32
    requires { (0 < n) × (c.old.count + 1 < 2 ^ 63) }
    ensures { Picked n c.old result c.new }
{
    rand_draw::whole32(c, n)
}

// The region that a till sits in; 0 without a plan.
fn region(setup: &[u64], prices: &[u64], t: usize) -> u64
    requires { Priced setup.now prices.now × (t < most_tills) }
    ensures { result ≡ region_at (settings_at setup.now).plan prices.now t }
{
    let n = link_geography::at_least_one(setup[ask_tables::REGIONS]);
    let i = (2 * (n * n)) as usize + t;
    if i < prices.len() {
        return prices[i];
    }
    0
}

// Base and time on the wire between two tills.
fn cost(setup: &[u64], prices: &[u64], from: usize, to: usize, bytes: u64) -> Cost
    requires { Sent setup.now prices.now «from» to bytes }
    ensures { result ≡ cost_at (settings_at setup.now) prices.now «from» to bytes }
{
    let a = region(setup, prices, from);
    let b = region(setup, prices, to);
    let latency = Time::from_nanos(setup[ask_tables::LATENCY]);
    let plan = (setup[ask_tables::PLANNED] != 0).then_some(setup[ask_tables::REGIONS]);
    link_prices::cost_between(prices, plan, a, b, latency, bytes)
}

// The latency of so many bytes between two tills.
pub fn delay(
    setup: &[u64],
    prices: &[u64],
    from: usize,
    to: usize,
    bytes: u64,
    c: &mut Cursor,
) -> Time
    requires { Sent setup.now prices.now «from» to bytes × (c.old.count + 5 < 2 ^ 63) }
    ensures { Delayed (settings_at setup.now) prices.now «from» to bytes c.old result.ns c.new }
{
    let k = cost(setup, prices, from, to, bytes);
    link_latency::sample_latency(
        c,
        k.base,
        rate(setup, ask_tables::JITTER),
        rate(setup, ask_tables::SPIKE),
        k.transmission,
    )
}
