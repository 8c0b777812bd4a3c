// The opening: its questions, then every table that it writes.
#![tactic(auto)]

ghost use Rattle.std.specs.Prelude.{◌≡◌, replicate};
ghost use Rattle.spec_network.specs.Opening.{links};
ghost use Rattle.spec_network.specs.Tables.{setup_of};
ghost use Rattle.spec_network.specs.Lending.{tables_of};
ghost use Rattle.spec_network.specs.Real.{keys_of, priced_by};
ghost use Rattle.ask_opening.specs.Given.{settings_of};
ghost use Rattle.call_reply.specs.Reply.{done_reply};
ghost use Rattle.call_open.specs.Opens.{DoesOpen, Settled, Begun, begun_net, begun_tills, begun_seen, begun_rings, begun_log};

use ask_opening::{NetworkConfig, NetworkSizes, RegionPlan, TableLengths};
use ask_refusal::Refusal;
use call_open_writes::{fill, links, prices, settings};

// What the opening alone writes: settings, word counts, link keys, prices.
// Each written table, here and below, is a parameter with a line of its own: a struct of them would be made for this one call and taken apart at once, no plainer.
fn write_settled(
    config: NetworkConfig,
    sizes: NetworkSizes,
    plan: RegionPlan,
    seed: u64,
    key: &[u8],
    setup: &mut [u64],
    words: &mut [u64],
    keys: &mut [u32],
    prices: &mut [u64],
)
    requires { Settled (settings_of config sizes plan seed key.now) key.now setup.old words.old keys.old prices.old }
    ensures { (setup.new ≡ setup_of (settings_of config sizes plan seed key.now))
        × (words.new ≡ replicate links 0)
        × (keys.new ≡ keys_of (settings_of config sizes plan seed key.now))
        × (prices.new ≡ priced_by (settings_of config sizes plan seed key.now)) }
{
    settings::write_setup(setup, config, sizes, plan, seed, key);
    fill::clear_words(words);
    links::write_keys(keys, seed, sizes.tills);
    prices::write_prices(prices, plan, sizes.tills);
}

// What calls write: counters, tills, counts of marks, heads of rings, the log's head.
fn write_begun(
    sizes: NetworkSizes,
    masks: &[u64],
    net: &mut [u64],
    tills: &mut [u64],
    seen: &mut [u64],
    rings: &mut [u64],
    log: &mut [u64],
)
    requires { Begun sizes masks.now net.old tills.old seen.old rings.old log.old }
    ensures { (net.new ≡ begun_net)
        × (tills.new ≡ begun_tills sizes masks.now)
        × (seen.new ≡ begun_seen sizes seen.old)
        × (rings.new ≡ begun_rings sizes rings.old)
        × (log.new ≡ begun_log log.old) }
{
    fill::clear(net, ask_tables::NET_WIDTH);
    fill::write_tills(tills, masks);
    fill::clear(seen, sizes.tills as usize);
    fill::clear(
        rings,
        sizes.types as usize * table_rings::SCOPES * table_rings::HEAD,
    );
    fill::clear(log, table_log::RECORDS);
}

// An opening: refused with nothing changed, or every table written. `key` is the fault stream's, 32 bytes; `masks` has the shards of each till.
// 13 tables, each a parameter and a length: C lends them one by one, and a struct of them would only move these lines, so it has more than 40.
pub fn open_network(
    config: NetworkConfig,
    sizes: NetworkSizes,
    plan: RegionPlan,
    seed: u64,
    key: &[u8],
    masks: &[u64],
    names: &[u8],
    setup: &mut [u64],
    net: &mut [u64],
    tills: &mut [u64],
    words: &mut [u64],
    keys: &mut [u32],
    prices: &mut [u64],
    seen: &mut [u64],
    waiting: &[u64],
    rings: &mut [u64],
    rules: &[u64],
    blocks: &[u64],
    log: &mut [u64],
) -> Result<(), Refusal>
    ensures { DoesOpen
        (tables_of setup.old net.old names.now tills.old words.old keys.old prices.old seen.old waiting.now rings.old rules.now blocks.now log.old)
        (tables_of setup.new net.new names.now tills.new words.new keys.new prices.new seen.new waiting.now rings.new rules.now blocks.now log.new)
        (settings_of config sizes plan seed key.now) masks.now (done_reply result) }
{
    let lengths = TableLengths {
        setup: setup.len() as u64,
        net: net.len() as u64,
        names: names.len() as u64,
        tills: tills.len() as u64,
        words: words.len() as u64,
        keys: keys.len() as u64,
        prices: prices.len() as u64,
        seen: seen.len() as u64,
        waiting: waiting.len() as u64,
        rings: rings.len() as u64,
        rules: rules.len() as u64,
        blocks: blocks.len() as u64,
        log: log.len() as u64,
    };
    ask_opening::refusal(config, sizes, plan, lengths, key, masks, names)?;
    write_settled(config, sizes, plan, seed, key, setup, words, keys, prices);
    write_begun(sizes, masks, net, tills, seen, rings, log);
    Ok(())
}
