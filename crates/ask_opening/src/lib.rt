// The opening's parameters and its questions: 1 (lengths of the lent tables), 2 (sizes and names), 3 (latency, fraction and rates), 5 (shard masks).
#![tactic(auto)]

ghost use Rattle.std.specs.Prelude.{◌≡◌, length};
ghost use Rattle.ask_refusal.specs.Refusals.{asked};
ghost use Rattle.link_latency.specs.Admitted.{latency_admitted, fraction_admitted, rate_admitted};
ghost use Rattle.spec_network.specs.Lists.{every};
ghost use Rattle.spec_network.specs.Limits.{rate_of, range_tests};
ghost use Rattle.ask_opening.specs.Given.{bits_of, config_of, settings_of};
ghost use Rattle.ask_opening.specs.Asked.{number_of};

use ask_refusal::Refusal;
use math_time::Time;

mod lengths;
mod limits;
mod sizes;

pub use sizes::table_sizes;

// Nanoseconds, and five rates.
#[repr(C)]
#[derive(Clone, Copy)]
pub struct NetworkConfig {
    pub latency: u64,
    pub jitter: f64,
    pub loss: f64,
    pub duplicate: f64,
    pub replay: f64,
    pub spike: f64,
}

// How many tills, types, classes and shards; seen slots a till, waiting slots and log slots.
#[repr(C)]
#[derive(Clone, Copy)]
pub struct NetworkSizes {
    pub tills: u64,
    pub types: u64,
    pub classes: u64,
    pub shards: u64,
    pub seen: u64,
    pub waiting: u64,
    pub log: u64,
}

// A plan of regions, or none where `planned` is 0: C gives it, so it is no Option.
#[repr(C)]
#[derive(Clone, Copy)]
pub struct RegionPlan {
    pub planned: u64,
    pub regions: u64,
    pub seed: u64,
}

// How many elements each table has that is lent.
#[derive(Clone, Copy)]
pub struct TableLengths {
    pub setup: u64,
    pub net: u64,
    pub names: u64,
    pub tills: u64,
    pub words: u64,
    pub keys: u64,
    pub prices: u64,
    pub seen: u64,
    pub waiting: u64,
    pub rings: u64,
    pub rules: u64,
    pub blocks: u64,
    pub log: u64,
}

// The lengths as C gets them: the number of the question that refused the sizes, or 0; how many elements each table has that an opening wants lent.
#[repr(C)]
#[derive(Clone, Copy, Default)]
pub struct TableSizes {
    pub number: u64,
    pub setup: u64,
    pub net: u64,
    pub names: u64,
    pub tills: u64,
    pub words: u64,
    pub keys: u64,
    pub prices: u64,
    pub seen: u64,
    pub waiting: u64,
    pub rings: u64,
    pub rules: u64,
    pub blocks: u64,
    pub log: u64,
}

// Question 3, of the latency. One line of link_latency's question, as in ask_tables: a public function there for both would be no shorter. Fraction and rates: C gives f64 here, bits stand there.
fn latency_in_range(ns: u64) -> bool
    ensures { result ≡ latency_admitted ns }
{
    link_latency::latency_admitted(Time::from_nanos(ns))
}

// Question 3, of the jitter fraction, by its bits.
fn fraction_in_range(fraction: f64) -> bool
    ensures { result ≡ fraction_admitted (rate_of (bits_of fraction)) }
{
    link_latency::fraction_admitted(fraction)
}

// Question 3, of a rate, by its bits.
fn rate_in_range(rate: f64) -> bool
    ensures { result ≡ rate_admitted (rate_of (bits_of rate)) }
{
    link_latency::rate_admitted(rate)
}

// 3: are latency, fraction and rates in range? NaN is not.
pub fn config_admitted(config: NetworkConfig) -> bool
    ensures { result ≡ every (range_tests (config_of config)) }
{
    latency_in_range(config.latency)
        && fraction_in_range(config.jitter)
        && rate_in_range(config.loss)
        && rate_in_range(config.duplicate)
        && rate_in_range(config.replay)
        && rate_in_range(config.spike)
}

// The first question whose answer is "no" refuses. `lengths` is what the lent tables have.
pub fn refusal(
    config: NetworkConfig,
    sizes: NetworkSizes,
    plan: RegionPlan,
    lengths: TableLengths,
    key: &[u8],
    masks: &[u64],
    names: &[u8],
) -> Result<(), Refusal>
    requires { lengths.names ≡ length names.now }
    ensures { asked result ≡ number_of (settings_of config sizes plan 0 key.now) lengths masks.now names.now }
{
    if !lengths::tables_fit(sizes, plan, lengths) {
        return Err(Refusal::Tables);
    }
    if !lengths::given_fit(sizes, key, masks) {
        return Err(Refusal::Tables);
    }
    if !limits::sizes_admitted(sizes, plan) {
        return Err(Refusal::Sizes);
    }
    if !ask_opening_parts::names_admitted(names, sizes.types, sizes.shards) {
        return Err(Refusal::Sizes);
    }
    if !config_admitted(config) {
        return Err(Refusal::Rates);
    }
    if !ask_opening_parts::masks_admitted(masks, sizes.shards) {
        return Err(Refusal::Range);
    }
    Ok(())
}
