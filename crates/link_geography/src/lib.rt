// Where tills sit, the price of a link between two regions, drawn, and the time on the wire.
#![tactic(auto)]

ghost use Rattle.std.specs.Prelude.{◌≡◌, ◌+◌, ◌<◌, ◌≤◌, ◌^◌, length};
ghost use Rattle.rand_streams.specs.Streams.{Moved};
ghost use Rattle.link_geography.specs.Bytes.{derive, host, links};
ghost use Rattle.link_geography.specs.Geography.{at_least_one, region_of, transmission_of, band_of, drawn_link, link_words, link_admitted, most_bytes};

use math_parts::joined;
use math_time::Time;
use rand_draw::range64;
use rand_streams::Cursor;

// What a delivery between two regions costs: latency before jitter, and bytes carried a second.
#[derive(Clone, Copy)]
pub struct Link {
    pub base: Time,
    pub rate: u64,
}

// A base and the time on the wire.
#[derive(Clone, Copy)]
pub struct Cost {
    pub base: Time,
    pub transmission: Time,
}

// The values that a link is drawn from: the least base in milliseconds and how many, the least rate and how many.
#[derive(Clone, Copy)]
pub struct Band {
    pub base: u64,
    pub bases: u64,
    pub rate: u64,
    pub rates: u64,
}

impl Band {
    // Within a region: 1..=10 ms, 10^9..=10^10 bytes a second.
    pub const NEAR: Band = Band {
        base: 1,
        bases: 10,
        rate: 1_000_000_000,
        rates: 9_000_000_001,
    };
    // Between regions: 40..=160 ms, 10^8..=10^9 bytes a second.
    pub const FAR: Band = Band {
        base: 40,
        bases: 121,
        rate: 100_000_000,
        rates: 900_000_001,
    };
}

// 0 acts as 1.
pub fn at_least_one(n: u64) -> u64
    ensures { (result ≡ at_least_one n) × (0 < result) }
{
    if n == 0 { 1 } else { n }
}

// The digest of the seed, "host" and the till's number.
fn host_digest(seed: u64, till: u32) -> [u32; 8]
    ensures { result ≡ derive seed host till }
{
    let named: [u8; 8] = joined(b"host", &till.to_le_bytes());
    hash_digest::hash_parts(&seed.to_le_bytes(), &named)
}

// The digest of the seed, "links" and 0.
pub fn links_digest(seed: u64) -> [u32; 8]
    ensures { result ≡ derive seed links 0 }
{
    hash_digest::hash_parts(&seed.to_le_bytes(), b"links\0\0\0\0")
}

// The region that a till sits in.
pub fn region_of(seed: u64, regions: u64, till: u32) -> u64
    ensures { (result ≡ region_of seed regions till) × (result < at_least_one regions) }
{
    let n = at_least_one(regions);
    let d = host_digest(seed, till);
    // The digest's first eight bytes as a number. std makes none of two halves; one sum is no plainer as a function.
    let low = u64::from(d[0]);
    let high = u64::from(d[1]);
    let draw = low + 4294967296 * high;
    draw % n
}

// The time to put bytes on a wire that carries rate bytes a second.
pub fn transmission(bytes: u64, rate: u64) -> Time
    requires { bytes ≤ most_bytes }
    ensures { result.ns ≡ transmission_of bytes rate }
{
    let n = at_least_one(rate);
    Time::from_nanos(bytes * Time::SECOND.ns / n)
}

// A link of a band, drawn: the base first, then the rate.
fn drawn_link(c: &mut Cursor, s: Band) -> Link
    requires { ((0 < s.bases) × (s.base + s.bases ≤ 2 ^ 40)) × ((0 < s.rates) × (s.rate + s.rates ≤ 2 ^ 40)) × (c.old.count + 7 < 2 ^ 63) }
    ensures { (result ≡ drawn_link c.old.key c.old.count s) × Moved c.old (link_words c.old.key c.old.count s) c.new }
{
    let millis = range64(c, s.base, s.bases);
    let rate = range64(c, s.rate, s.rates);
    let base = Time::from_millis(millis);
    Link { base, rate }
}

// The price of the link between regions a and b.
pub fn price(c: &mut Cursor, a: u64, b: u64) -> Link
    requires { c.old.count + 7 < 2 ^ 63 }
    ensures { (result ≡ drawn_link c.old.key c.old.count (band_of a b)) × Moved c.old (link_words c.old.key c.old.count (band_of a b)) c.new }
{
    if a == b {
        return drawn_link(c, Band::NEAR);
    }
    drawn_link(c, Band::FAR)
}

// Whether a plan can give this link: at most 160 ms, and at least 100,000,000 bytes a second.
pub fn link_admitted(l: Link) -> bool
    ensures { result ≡ link_admitted l }
{
    let base = l.base;
    base.ns <= 160 * Time::MILLISECOND.ns && 100_000_000 <= l.rate
}
