// Question 1: are the lent tables of the opening's sizes, with counts, hosts, types and classes in range? One function a table.
#![tactic(auto)]

ghost use Rattle.std.specs.Prelude.{◌≡◌, true, ◌∷◌, [], ◌++◌, ◌+◌, ◌*◌, ◌^◌, ◌<◌, ◌≤◌, length, get_or, set, take, drop, refl};
ghost use Rattle.table_shift.specs.Shift.{put_words};
ghost use Rattle.table_rows.specs.Rows.{all_of};
ghost use Rattle.table_rows.specs.Table.{rows_of};
ghost use Rattle.fault_blocks.specs.Blocks.{block_width};
ghost use Rattle.link_latency.specs.Admitted.{latency_admitted, fraction_admitted, rate_admitted};
ghost use Rattle.spec_network.specs.Tables.{sizes_at, till_form, ids_start, block_form};
ghost use Rattle.spec_network.specs.Limits.{rate_of};
ghost use Rattle.ask_tables.specs.Held.{sizes_within, sizes_held, ranges_held, setup_held, net_held, words_held, rules_held, keys_held, masks_below, tills_held, ends_below, blocks_held, seen_held};
ghost use Rattle.ask_tables.specs.TillRow.{till_width, form, exact, live_till};

use fault_blocks::BlockWindow;
use math_time::Time;
use table_rows::Row;

// Where the numbers of `setup` stand. C lends it as words, and a call reads a few of them by place: a record of all 25 would be read for one, no plainer.
pub const TILLS: usize = 0;

pub const TYPES: usize = 1;

pub const CLASSES: usize = 2;

pub const SHARDS: usize = 3;

pub const SEEN_SLOTS: usize = 4;

pub const WAIT_SLOTS: usize = 5;

pub const LOG_SLOTS: usize = 6;

pub const LATENCY: usize = 7;

pub const JITTER: usize = 8;

pub const LOSS: usize = 9;

pub const DUPLICATE: usize = 10;

pub const REPLAY: usize = 11;

pub const SPIKE: usize = 12;

pub const PLANNED: usize = 13;

pub const REGIONS: usize = 14;

pub const PLAN_SEED: usize = 15;

pub const SEED: usize = 16;

pub const FAULT_KEY: usize = 17;

pub const SETUP_WIDTH: usize = 25;

// Where the numbers of `net` stand: words that C lends, as `setup` is; a call counts one or two of them up in place.
pub const SEQUENCE: usize = 0;

pub const WAITING: usize = 1;

pub const RULES: usize = 2;

pub const INSTALLED: usize = 3;

pub const FAULT_WORDS: usize = 4;

pub const BLOCKS: usize = 5;

pub const NET_WIDTH: usize = 6;

// Document 01's limits.
pub const MOST_TILLS: u64 = 64;

pub const MOST_TYPES: u64 = 16;

pub const MOST_CLASSES: u64 = 8;

pub const MOST_SHARDS: u64 = 16;

pub const MOST_SLOTS: u64 = 4096;

pub const MOST_REGIONS: u64 = 16;

pub const LONGEST_WIRE: u64 = 65536;

pub const LONGEST_NAME: u8 = 64;

pub const LONGEST_KEY: u8 = 16;

// The latest now, 2^60; the words that a stream may have given, 2^40; the last sequence.
pub const LATEST: u64 = 1152921504606846976;

pub const MOST_WORDS: u64 = 1099511627776;

pub const LAST_SEQUENCE: u64 = 4294967295;

// A scope that is no shard: a scope is a number in rows, on cards and to C, so an enum would be made of it and turned back at each, no plainer.
pub const GLOBAL: u64 = 16;

// One word count for each ordered pair of 64 tills: those of a sender stand in a row.
pub const LINKS: usize = 4096;

pub const LINK_ROW: usize = 64;

// The words of a stream's key, and of a row of `tills`.
pub const LINK_KEY_WIDTH: u64 = 8;

pub const TILL_WIDTH: usize = 4;

// The word at i, or 0 where there is none.
pub fn cell(s: &[u64], i: usize) -> u64
    ensures { result ≡ get_or s.now i 0 }
{
    if i < s.len() { s[i] } else { 0 }
}

// The word at i anew, where there is one.
pub fn put(s: &mut [u64], i: usize, v: u64)
    ensures { s.new ≡ set s.old i v }
{
    if i < s.len() {
        s[i] = v;
    }
}

// A till in its row of `tills`: is it up, the types that it gossips and hosts, the shards that it takes.
// `up` is the word as C lends it: any but 0 is up, and a bool would not give the same row back (`exact`).
#[derive(Clone, Copy)]
pub struct Till {
    pub up: u64,
    pub gossip: u64,
    pub host: u64,
    pub shards: u64,
}

impl Row for Till {
    ghost form = { form };

    ghost WIDTH = { till_width };

    const WIDTH: usize = TILL_WIDTH;

    // The till whose words start at b.
    fn get(ws: &[u64], b: usize) -> Till {
        Till {
            up: ws[b],
            gossip: ws[b + 1],
            host: ws[b + 2],
            shards: ws[b + 3],
        }
    }

    // The till's words, from b on.
    fn put(self, ws: &mut [u64], b: usize) {
        ws[b] = self.up;
        ws[b + 1] = self.gossip;
        ws[b + 2] = self.host;
        ws[b + 3] = self.shards;
    }

    ghost exact = { exact };

    ghost wide = { refl };
}

impl Till {
    // Are its masks below these powers?
    #[tactic(auto, unfolding(crate::specs::Held::masks_below))]
    fn masks_below(self, types: u64, shards: u64) -> bool
        ensures { result ≡ masks_below types shards (live_till self) }
    {
        self.gossip < types && self.host < types && self.shards < shards
    }
}

// The till whose words start at b.
pub fn put_till(tills: &mut [u64], b: usize, up: u64, gossip: u64, host: u64, shards: u64)
    requires { b + till_form.width ≤ length tills.old }
    ensures { tills.new ≡ put_words tills.old b (up ∷ gossip ∷ host ∷ shards ∷ []) }
{
    Till {
        up,
        gossip,
        host,
        shards,
    }
    .put(tills, b);
}

// n words of `from`, at the front of `out`. Cut at its three callers, each would cut both slices and prove what stays behind: no plainer.
pub fn copy_front(from: &[u64], start: usize, n: usize, out: &mut [u64])
    requires { (start + n ≤ length «from».now) × (n ≤ length out.old) }
    ensures { out.new ≡ take n (drop start «from».now) ++ drop n out.old }
{
    out[0..n].copy_from_slice(&from[start..start + n]);
}

// Where the ids of a till start in `seen`.
pub fn ids_start(setup: &[u64], to: usize) -> usize
    requires { ids_start (sizes_at setup.now) to < 2 ^ 63 }
    ensures { result ≡ ids_start (sizes_at setup.now) to }
{
    let tills = cell(setup, TILLS) as usize;
    let slots = cell(setup, SEEN_SLOTS) as usize;
    tills + to * slots
}

// Are the sizes within the limits?
#[tactic(auto, unfolding(crate::specs::Held::sizes_within))]
pub fn sizes_within(
    tills: u64,
    types: u64,
    classes: u64,
    shards: u64,
    seen: u64,
    waiting: u64,
    log: u64,
    regions: u64,
) -> bool
    ensures { result ≡ sizes_within tills types classes shards seen waiting log regions }
{
    tills <= MOST_TILLS
        && types <= MOST_TYPES
        && classes <= MOST_CLASSES
        && shards <= MOST_SHARDS
        && 1 <= waiting
        && waiting <= MOST_SLOTS
        && 1 <= seen
        && seen <= MOST_SLOTS
        && log <= MOST_SLOTS
        && regions <= MOST_REGIONS
}

// Are the sizes in `setup` within the limits?
#[tactic(auto, unfolding(crate::specs::Held::sizes_within, crate::specs::Held::sizes_held))]
fn sizes_held(setup: &[u64]) -> bool
    ensures { result ≡ sizes_held setup.now }
{
    sizes_within(
        cell(setup, TILLS),
        cell(setup, TYPES),
        cell(setup, CLASSES),
        cell(setup, SHARDS),
        cell(setup, SEEN_SLOTS),
        cell(setup, WAIT_SLOTS),
        cell(setup, LOG_SLOTS),
        cell(setup, REGIONS),
    )
}

// Is a latency of so many nanoseconds one that an opening admits?
fn latency_held(ns: u64) -> bool
    ensures { result ≡ latency_admitted ns }
{
    link_latency::latency_admitted(Time::from_nanos(ns))
}

// Is a jitter fraction, by its bits, one that an opening admits?
fn fraction_held(bits: u64) -> bool
    ensures { result ≡ fraction_admitted (rate_of bits) }
{
    link_latency::fraction_admitted(math_float::of_any(bits))
}

// Is a rate, by its bits, one that an opening admits?
fn rate_held(bits: u64) -> bool
    ensures { result ≡ rate_admitted (rate_of bits) }
{
    link_latency::rate_admitted(math_float::of_any(bits))
}

// Are latency, fraction and rates those that an opening admits?
#[tactic(auto, unfolding(crate::specs::Held::ranges_held))]
fn ranges_held(setup: &[u64]) -> bool
    ensures { result ≡ ranges_held setup.now }
{
    latency_held(cell(setup, LATENCY))
        && fraction_held(cell(setup, JITTER))
        && rate_held(cell(setup, LOSS))
        && rate_held(cell(setup, DUPLICATE))
        && rate_held(cell(setup, REPLAY))
        && rate_held(cell(setup, SPIKE))
}

// Is `setup` as long as an opening makes it, with sizes and ranges that it admits?
#[tactic(auto, unfolding(crate::specs::Held::setup_held, crate::specs::Held::sizes_held, crate::specs::Held::ranges_held))]
pub fn setup_held(setup: &[u64]) -> bool
    ensures { result ≡ setup_held setup.now }
{
    setup.len() == SETUP_WIDTH && sizes_held(setup) && ranges_held(setup)
}

// Is `net` as long as it must be, and are its counts within the slots?
#[tactic(auto, unfolding(crate::specs::Held::net_held))]
pub fn net_held(setup: &[u64], net: &[u64]) -> bool
    ensures { result ≡ net_held setup.now net.now }
{
    net.len() == NET_WIDTH
        && net[WAITING] <= cell(setup, WAIT_SLOTS)
        && net[RULES] <= fault_rules::SLOTS as u64
        && net[BLOCKS] <= fault_blocks::SLOTS as u64
}

// Has `words` a count for each pair of tills?
pub fn words_held(words: &[u64]) -> bool
    ensures { result ≡ words_held words.now }
{
    words.len() == LINKS
}

// Is `rules` as long as its slots?
pub fn rules_held(rules: &[u64]) -> bool
    ensures { result ≡ rules_held rules.now }
{
    rules.len() == fault_rules::SLOTS * fault_rules::WIDTH
}

// Has `keys` a key for each pair of the tills?
// `setup_held` here, in tills_held and seen_held bounds products and powers: without it each would test the sizes again, no plainer.
// Nor is a struct with it as invariant: C lends `setup` as words at each call, so each call would make it anew, only for these.
#[tactic(auto, using(crate::proofs::Passed::setup_says_lem))]
pub fn keys_held(setup: &[u64], keys: &[u32]) -> bool
    requires { setup_held setup.now ≡ true }
    ensures { result ≡ keys_held setup.now keys.now }
{
    let n = setup[TILLS];
    keys.len() as u64 == n * n * LINK_KEY_WIDTH
}

// 2^n: a mask of n types or shards is below it.
pub fn power(n: u64) -> u64
    requires { n ≤ 16 }
    ensures { result ≡ 2 ^ n }
{
    1 << n
}

// Has `tills` a row for each till, with masks of the types and shards that there are?
#[tactic(auto, using(crate::proofs::Passed::setup_says_lem))]
pub fn tills_held(setup: &[u64], tills: &[u64]) -> bool
    requires { setup_held setup.now ≡ true }
    ensures { result ≡ tills_held setup.now tills.now }
{
    let n = setup[TILLS] as usize;
    if tills.len() != n * TILL_WIDTH {
        return false;
    }
    let types = power(setup[TYPES]);
    let shards = power(setup[SHARDS]);
    table_rows::all(tills, n, |t: Till| t.masks_below(types, shards))
}

// Does a window name tills that exist?
#[tactic(auto, unfolding(crate::specs::Held::ends_below))]
fn ends_below(b: BlockWindow, tills: u64) -> bool
    ensures { result ≡ ends_below tills b }
{
    b.from < tills && b.to < tills
}

// Does each of the first n windows name tills that exist? n rows of a table as long as its slots; inlined in blocks_held, its `requires` did not close (tried three ways).
fn all_ends_below(blocks: &[u64], n: usize, tills: u64) -> bool
    requires { n * block_width ≤ length blocks.now }
    ensures { result ≡ all_of (ends_below tills) (rows_of block_form blocks.now n) }
{
    table_rows::all(blocks, n, |b: BlockWindow| ends_below(b, tills))
}

// Is `blocks` as long as its slots, and do the windows in use name tills that exist?
pub fn blocks_held(setup: &[u64], net: &[u64], blocks: &[u64]) -> bool
    requires { net_held setup.now net.now ≡ true }
    ensures { result ≡ blocks_held setup.now net.now blocks.now }
{
    if blocks.len() != fault_blocks::SLOTS * fault_blocks::WIDTH {
        return false;
    }
    all_ends_below(blocks, net[BLOCKS] as usize, cell(setup, TILLS))
}

// Has `seen` a count and slots for each till, and is no count beyond the slots?
#[tactic(auto, using(crate::proofs::Passed::setup_says_lem))]
pub fn seen_held(setup: &[u64], seen: &[u64]) -> bool
    requires { setup_held setup.now ≡ true }
    ensures { result ≡ seen_held setup.now seen.now }
{
    let n = setup[TILLS] as usize;
    let slots = setup[SEEN_SLOTS];
    if seen.len() != n + n * (slots as usize) {
        return false;
    }
    table_scan::column_within(seen, 0, 1, n, slots)
}
