// What a delivery between two regions costs. The links' prices lie in lent memory.
// `regions ≤ most_regions` keeps the draws of all pairs below 2^63 words, which a draw asks; a type of such a count would be made from the settings for one call.
#![tactic(auto)]

ghost use Rattle.std.specs.Prelude.{◌≡◌, ◌+◌, ◌-◌, ◌*◌, ◌<◌, ◌≤◌, ◌^◌, MatchOption, min, true, false, set};
ghost use Rattle.link_geography.specs.Geography.{put_link, put_pair, link_at, cost_of, Stands, all_count, priced_row, prices_of, most_regions, most_bytes};

use link_geography::{Cost, Link};
use math_time::Time;
use rand_streams::Cursor;

// The word at i anew, where there is one: for put_link alone. ask_tables' `put`, above this crate, is the same one `if`; one of both in math_parts would be no plainer.
fn put(s: &mut [u64], i: usize, v: u64)
    ensures { s.new ≡ set s.old i v }
{
    if i < s.len() {
        s[i] = v;
    }
}

// Where the link from region a to region b starts; past every table where that is no number of 64 bits.
fn place(regions: u64, a: u64, b: u64) -> usize
    ensures { result ≡ min (2 * (a * regions + b)) (2 ^ 64 - 1) }
{
    a.saturating_mul(regions)
        .saturating_add(b)
        .saturating_mul(2) as usize
}

// The link from a to b.
fn put_link(prices: &mut [u64], regions: u64, a: u64, b: u64, l: Link)
    ensures { prices.new ≡ put_link prices.old (a * regions + b) l }
{
    let at = place(regions, a, b);
    let base = l.base;
    put(prices, at, base.ns);
    put(prices, at.saturating_add(1), l.rate);
}

// The link between a and b, both ways.
fn put_pair(prices: &mut [u64], regions: u64, a: u64, b: u64, l: Link)
    ensures { prices.new ≡ put_pair prices.old regions a b l }
{
    put_link(prices, regions, a, b, l);
    put_link(prices, regions, b, a, l);
}

// Row a: the pairs (a, a), (a, a + 1), ..
fn price_row(prices: &mut [u64], c: &mut Cursor, regions: u64, a: u64)
    requires { (a < regions) × (regions ≤ most_regions) × (c.old.count ≡ all_count c.old.key regions a) }
    ensures { (prices.new ≡ priced_row c.old.key regions a (regions - a) prices.old) × Stands c.old.key (all_count c.old.key regions (a + 1)) c.new }
{
    for b in a..regions {
        let link = link_geography::price(c, a, b);
        put_pair(prices, regions, a, b, link);
    }
}

// Prices every pair of regions of a plan, in a lent table.
pub fn price_links(prices: &mut [u64], seed: u64, regions: u64)
    requires { regions ≤ most_regions }
    ensures { prices.new ≡ prices_of seed regions prices.old }
{
    let n = link_geography::at_least_one(regions);
    let key = link_geography::links_digest(seed);
    let mut c = Cursor::at(key, 0);
    for a in 0..n {
        price_row(prices, &mut c, n, a);
    }
}

// The link between regions a and b.
pub fn link_between(prices: &[u64], regions: u64, a: u64, b: u64) -> Link
    ensures { result ≡ link_at prices.now regions a b }
{
    let n = link_geography::at_least_one(regions);
    let at = place(n, a, b);
    let base = Time::from_nanos(prices.get(at).map_or(0, |x| *x));
    let rate = prices.get(at.saturating_add(1)).map_or(0, |x| *x);
    Link { base, rate }
}

// What a delivery costs: by its link in a plan of so many regions, or without a plan the set latency and no time on the wire.
pub fn cost_between(
    prices: &[u64],
    plan: Option<u64>,
    a: u64,
    b: u64,
    latency: Time,
    bytes: u64,
) -> Cost
    requires { bytes ≤ most_bytes }
    ensures { MatchOption plan (result ≡ cost_of false prices.now 0 a b latency.ns bytes) (λ regions. result ≡ cost_of true prices.now regions a b latency.ns bytes) }
{
    let Some(regions) = plan else {
        return Cost {
            base: latency,
            transmission: Time::ZERO,
        };
    };
    let l = link_between(prices, regions, a, b);
    let wire = link_geography::transmission(bytes, l.rate);
    Cost {
        base: l.base,
        transmission: wire,
    }
}
