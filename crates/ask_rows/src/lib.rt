// Question 1, of the tables whose rows are scanned: waiting, log, rings, names and prices. Definitions and the other tables are in `ask_tables`.
#![tactic(auto)]

ghost use Rattle.std.specs.Prelude.{◌≡◌, true, ◌+◌, ◌*◌, ◌≤◌, ◌<◌, length};
ghost use Rattle.link_geography.specs.Geography.{link_width, link_in, most_regions};
ghost use Rattle.table_scan.specs.Scan.{column_within};
ghost use Rattle.spec_network.specs.Opening.{most_tills};
ghost use Rattle.spec_network.specs.Tables.{sizes_at};
ghost use Rattle.ask_tables.specs.Held.{setup_held, net_held, waiting_held, log_held, rings_held, names_held, prices_held};
ghost use Rattle.ask_rows.specs.HeldRows.{limits_of, links_admitted, plan_held};

use link_geography::Link;
use math_time::Time;
use table_scan::Limits;

// A length and the bytes of the longest text; where the shard keys start; the bytes of `names`.
pub const NAME_WIDTH: usize = 65;

pub const SHARD_KEY_WIDTH: usize = 17;

pub const KEYS: usize = 16 * NAME_WIDTH;

pub const NAMES_WIDTH: usize = KEYS + 16 * SHARD_KEY_WIDTH;

// The words of a link in `prices`: base and rate.
pub const LINK_WIDTH: usize = 2;

// The numbers of the opening that a scan goes by.
fn limits(setup: &[u64]) -> Limits
    ensures { result ≡ limits_of (sizes_at setup.now) }
{
    Limits {
        hosts: ask_tables::cell(setup, ask_tables::TILLS),
        kinds: ask_tables::cell(setup, ask_tables::TYPES),
        classes: ask_tables::cell(setup, ask_tables::CLASSES),
        wire: ask_tables::LONGEST_WIRE,
    }
}

// `setup_held` in the contracts below bounds products, rows and places: without it each would test the sizes again, no plainer. No struct with it as its invariant: C lends the
// tables at each call, so it would be made anew, and asked anew, at each call.
// Have the waiting copies the length of the opening's slots, and are those in use in range?
#[tactic(auto, using(ask_tables::proofs::Passed::setup_says_lem, ask_tables::proofs::Passed::net_says_lem))]
pub fn waiting_held(setup: &[u64], net: &[u64], waiting: &[u64]) -> bool
    requires { (setup_held setup.now ≡ true) × (net_held setup.now net.now ≡ true) }
    ensures { result ≡ waiting_held setup.now net.now waiting.now }
{
    let slots = setup[ask_tables::WAIT_SLOTS] as usize;
    if waiting.len() != slots * table_waiting::WIDTH {
        return false;
    }
    let n = net[ask_tables::WAITING] as usize;
    table_scan::copies_near(waiting, n, limits(setup))
}

// Has the log the length of the opening's slots, and are its head and records in range?
#[tactic(auto, using(ask_tables::proofs::Passed::setup_says_lem))]
pub fn log_held(setup: &[u64], log: &[u64]) -> bool
    requires { setup_held setup.now ≡ true }
    ensures { result ≡ log_held setup.now log.now }
{
    let slots = setup[ask_tables::LOG_SLOTS] as usize;
    if log.len() != table_log::RECORDS + slots * table_delivery::WIDTH {
        return false;
    }
    table_scan::log_near(log, slots, limits(setup))
}

// Is there a ring for each type and scope, and are all in range?
#[tactic(auto, using(ask_tables::proofs::Passed::setup_says_lem))]
pub fn rings_held(setup: &[u64], rings: &[u64]) -> bool
    requires { setup_held setup.now ≡ true }
    ensures { result ≡ rings_held setup.now rings.now }
{
    let n = setup[ask_tables::TYPES] as usize * table_rings::SCOPES;
    if rings.len() != n * table_rings::SIZE {
        return false;
    }
    table_scan::rings_near(rings, n, limits(setup))
}

// Is each of n bytes, `stride` apart from `start` on, at most `limit`?
// Of words it is `table_scan::column_within`: one function of both would be generic in the cell, its clause of the list as `into` converts it, and each caller would owe that this
// is the list itself: no plainer.
pub fn lengths_within(names: &[u8], start: usize, stride: usize, n: usize, limit: u8) -> bool
    requires { (1 ≤ stride) × (start + n * stride ≤ length names.now) }
    ensures { result ≡ column_within names.now start stride n limit }
{
    for i in 0..n {
        if names[start + i * stride] > limit {
            return false;
        }
    }
    true
}

// Have the names their length, and is no type's name and no shard's key too long?
#[tactic(auto, using(ask_tables::proofs::Passed::setup_says_lem))]
pub fn names_held(setup: &[u64], names: &[u8]) -> bool
    requires { setup_held setup.now ≡ true }
    ensures { result ≡ names_held setup.now names.now }
{
    if names.len() != NAMES_WIDTH {
        return false;
    }
    let types = setup[ask_tables::TYPES] as usize;
    if !lengths_within(names, 0, NAME_WIDTH, types, ask_tables::LONGEST_NAME) {
        return false;
    }
    let shards = setup[ask_tables::SHARDS] as usize;
    lengths_within(
        names,
        KEYS,
        SHARD_KEY_WIDTH,
        shards,
        ask_tables::LONGEST_KEY,
    )
}

// Row i of the links.
fn link_in(prices: &[u64], i: usize) -> Link
    requires { link_width * i + link_width ≤ length prices.now }
    ensures { result ≡ link_in prices.now i }
{
    let at = LINK_WIDTH * i;
    let base = Time { ns: prices[at] };
    let rate = prices[at + 1];
    Link { base, rate }
}

// Are the first n links such as a plan can give? As a slice of its own the count would be divided out of its length again, to say which words are link i, no plainer.
fn links_admitted(prices: &[u64], n: usize) -> bool
    requires { link_width * n ≤ length prices.now }
    ensures { result ≡ links_admitted prices.now n }
{
    for i in 0..n {
        if !link_geography::link_admitted(link_in(prices, i)) {
            return false;
        }
    }
    true
}

// Have the prices a link for each pair of regions, and a region for each till?
// `regions ≤ most_regions`, `tills ≤ most_tills`: `setup_held` has said both, and they bound the length that is asked for; without them the product and the sum would saturate, and
// a length that fits by saturation would have to be shut out, no plainer.
fn plan_held(prices: &[u64], regions: usize, tills: usize) -> bool
    requires { (1 ≤ regions) × (regions ≤ most_regions) × (tills ≤ most_tills) }
    ensures { result ≡ plan_held prices.now regions tills }
{
    let pairs = regions * regions;
    if prices.len() != LINK_WIDTH * pairs + tills {
        return false;
    }
    if !links_admitted(prices, pairs) {
        return false;
    }
    table_scan::column_within(prices, LINK_WIDTH * pairs, 1, tills, (regions - 1) as u64)
}

// Are the prices such as the plan gives; without a plan, are there none?
#[tactic(auto, using(ask_tables::proofs::Passed::setup_says_lem))]
pub fn prices_held(setup: &[u64], prices: &[u64]) -> bool
    requires { setup_held setup.now ≡ true }
    ensures { result ≡ prices_held setup.now prices.now }
{
    if setup[ask_tables::PLANNED] == 0 {
        return prices.len() == 0;
    }
    let regions = link_geography::at_least_one(setup[ask_tables::REGIONS]) as usize;
    plan_held(prices, regions, setup[ask_tables::TILLS] as usize)
}
