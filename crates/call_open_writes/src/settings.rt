// The settings as the cells of `setup`.
ghost use Rattle.std.specs.Prelude.{◌≡◌, true, false, ◌+◌, ◌≤◌, length};
ghost use Rattle.std.specs.Float.Ieee.{is_nan};
ghost use Rattle.math_word.specs.Word.{le_word};
ghost use Rattle.spec_network.specs.Lists.{every};
ghost use Rattle.spec_network.specs.Limits.{range_tests};
ghost use Rattle.spec_network.specs.Tables.{setup_of, setup_width};
ghost use Rattle.ask_opening.specs.Given.{bits_of, config_of, settings_of, key_bytes};

use ask_opening::{NetworkConfig, NetworkSizes, RegionPlan};

// The bits of a rate. A NaN has no one pattern, so it must be none: question 3 has refused it.
fn rate_bits(rate: f64) -> u64
    requires { is_nan rate ≡ false }
    ensures { result ≡ bits_of rate }
{
    f64::to_bits(rate)
}

// The little-endian word at byte i of the fault stream's key.
fn key_word(key: &[u8], i: usize) -> u64
    requires { i + 4 ≤ length key.now }
    ensures { result ≡ le_word key.now i }
{
    u64::from(math_word::le_word(key, i))
}

// Sizes, latency and rates, plan, seed, and the key's 8 words.
fn cells(
    config: NetworkConfig,
    sizes: NetworkSizes,
    plan: RegionPlan,
    seed: u64,
    key: &[u8],
) -> [u64; 25]
    requires { (every (range_tests (config_of config)) ≡ true) × (length key.now ≡ key_bytes) }
    ensures { (result ≡ setup_of (settings_of config sizes plan seed key.now)) × (length result ≡ setup_width) }
{
    [
        sizes.tills,
        sizes.types,
        sizes.classes,
        sizes.shards,
        sizes.seen,
        sizes.waiting,
        sizes.log,
        config.latency,
        rate_bits(config.jitter),
        rate_bits(config.loss),
        rate_bits(config.duplicate),
        rate_bits(config.replay),
        rate_bits(config.spike),
        plan.planned,
        plan.regions,
        plan.seed,
        seed,
        key_word(key, 0),
        key_word(key, 4),
        key_word(key, 8),
        key_word(key, 12),
        key_word(key, 16),
        key_word(key, 20),
        key_word(key, 24),
        key_word(key, 28),
    ]
}

// The settings into `setup`.
pub fn write_setup(
    setup: &mut [u64],
    config: NetworkConfig,
    sizes: NetworkSizes,
    plan: RegionPlan,
    seed: u64,
    key: &[u8],
)
    requires { (every (range_tests (config_of config)) ≡ true) × (length key.now ≡ key_bytes) × (length setup.old ≡ setup_width) }
    ensures { setup.new ≡ setup_of (settings_of config sizes plan seed key.now) }
{
    let given = cells(config, sizes, plan, seed, key);
    setup.copy_from_slice(&given);
}
