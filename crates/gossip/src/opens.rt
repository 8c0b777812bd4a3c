// The opening as C functions: C lends each table by itself.
ghost use Rattle.std.specs.Prelude.{◌≡◌};
ghost use Rattle.call_open.specs.Opens.{DoesOpen};
ghost use Rattle.ask_opening.specs.Given.{settings_of};
ghost use Rattle.ask_opening.specs.Sizes.{table_sizes};
ghost use Rattle.ask_opening.specs.Given.{sized};

use ask_opening::{NetworkConfig, NetworkSizes, RegionPlan, TableSizes};
use call_reply::Done;

// Opens a network in the lent tables, or refuses with 1, 2, 3 or 5. Over 40 lines: the C interface has nineteen parameters, and the clause names each table twice.
#[unsafe(no_mangle)]
pub extern "C" fn gossip_open(
    config: NetworkConfig,
    sizes: NetworkSizes,
    plan: RegionPlan,
    seed: u64,
    key: &[u8],
    masks: &[u64],
    names: &[u8],
    setup: &mut [u64],
    net: &mut [u64],
    tills: &mut [u64],
    words: &mut [u64],
    keys: &mut [u32],
    prices: &mut [u64],
    seen: &mut [u64],
    waiting: &[u64],
    rings: &mut [u64],
    rules: &[u64],
    blocks: &[u64],
    log: &mut [u64],
) -> Done
    ensures { DoesOpen
        (record {
          setup = setup.old;
          net = net.old;
          names = names.now;
          tills = tills.old;
          words = words.old;
          keys = keys.old;
          prices = prices.old;
          seen = seen.old;
          waiting = waiting.now;
          rings = rings.old;
          rules = rules.now;
          blocks = blocks.now;
          log = log.old;
        })
        (record {
          setup = setup.new;
          net = net.new;
          names = names.now;
          tills = tills.new;
          words = words.new;
          keys = keys.new;
          prices = prices.new;
          seen = seen.new;
          waiting = waiting.now;
          rings = rings.new;
          rules = rules.now;
          blocks = blocks.now;
          log = log.new;
        })
        (settings_of config sizes plan seed key.now) masks.now result }
{
    Done::from(call_open::open_network(
        config, sizes, plan, seed, key, masks, names, setup, net, tills, words, keys, prices, seen,
        waiting, rings, rules, blocks, log,
    ))
}

// How many elements each lent table has for an opening; 2, and zeros, where its sizes are beyond the limits.
#[unsafe(no_mangle)]
pub extern "C" fn gossip_table_sizes(sizes: NetworkSizes, plan: RegionPlan) -> TableSizes
    ensures { result ≡ table_sizes (sized sizes plan) }
{
    TableSizes::from(ask_opening::table_sizes(sizes, plan))
}
