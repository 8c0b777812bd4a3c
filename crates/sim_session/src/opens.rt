// The opening of a script: its line, its tables, its answer.
ghost use Rattle.std.specs.Prelude.{◌≡◌, take};

use ask_opening::{NetworkConfig, NetworkSizes, RegionPlan, TableLengths};
use ask_refusal::Refusal;
use sim_lend::{Network, copied, front};
use sim_openings::{KEY, Layout, Opening};
use sim_spelling::words::part;

// The classes of every opening.
const CLASSES: u64 = ask_tables::MOST_CLASSES;

// The fault stream's key stands behind the names of a line that is read, up to here.
pub const KEY_END: usize = ask_rows::NAMES_WIDTH + KEY;

// Where the names of an opening stand.
pub fn layout() -> Layout {
    Layout {
        name: ask_rows::NAME_WIDTH,
        shard: ask_rows::SHARD_KEY_WIDTH,
        shards: ask_rows::KEYS,
        most: ask_tables::MOST_TYPES as usize,
        slots: ask_tables::MOST_SLOTS,
    }
}

// The rates of an opening, as the engine takes them.
fn config(o: Opening) -> NetworkConfig {
    NetworkConfig {
        latency: o.latency,
        jitter: math_float::of_any(o.jitter),
        loss: math_float::of_any(o.loss),
        duplicate: math_float::of_any(o.duplicate),
        replay: math_float::of_any(o.replay),
        spike: math_float::of_any(o.spike),
    }
}

// The sizes of an opening, as the engine takes them.
fn sizes(o: Opening) -> NetworkSizes {
    NetworkSizes {
        tills: o.tills,
        types: o.types,
        classes: CLASSES,
        shards: o.shards,
        seen: o.seen,
        waiting: o.slots,
        log: o.log,
    }
}

// Numbers of 0 where no regions are planned.
fn plan(o: Opening) -> RegionPlan {
    match o.plan {
        Some(plan) => RegionPlan {
            planned: 1,
            regions: plan.regions,
            seed: plan.seed,
        },
        None => RegionPlan {
            planned: 0,
            regions: 0,
            seed: 0,
        },
    }
}

// `auto`: the key that the oracle's `rand_core` 0.6.3 (`seed_from_u64`) spreads the engine's seed to, which is the opening's with the engine's salt.
// It rests on that shim alone: document 01 leaves the spreading to the caller.
const SALT: u64 = 0xfa17_5a17_fa17_5a17;

// The step from a state to the next: a factor, and a number added.
const TIMES: u64 = 6364136223846793005;

const PLUS: u64 = 11634580027462260723;

// The next state.
fn spread(state: u64) -> u64 {
    state.wrapping_mul(TIMES).wrapping_add(PLUS)
}

// The 32 bits of a state: shifted, then rotated right by its top five bits.
fn mixed(state: u64) -> u32 {
    let x = ((state >> 18) ^ state) >> 27;
    let by = state >> 59;
    ((x & 0xffff_ffff) as u32).rotate_right(by as u32)
}

// The key that a seed is spread to: eight words.
fn spread_key(seed: u64) -> [u8; KEY] {
    let mut key = [0u8; KEY];
    let mut state = seed ^ SALT;
    for place in key.chunks_exact_mut(4) {
        state = spread(state);
        place.copy_from_slice(&mixed(state).to_le_bytes());
    }
    key
}

// An opening's line, read: names and key to `fresh`, masks to `out`.
pub fn read(line: &[u8], fresh: &mut [u8], out: &mut [u64]) -> Option<Opening> {
    let o = sim_openings::open_line(line, fresh, out, layout())?;
    if let Some(key) = fresh.get_mut(ask_rows::NAMES_WIDTH..KEY_END) {
        key.copy_from_slice(&o.fault_key.unwrap_or_else(|| spread_key(o.seed)));
    }
    Some(o)
}

// The front parts of the tables that have these lengths. Over 40 lines: fourteen fields, taken apart and put together.
pub fn fitted<'a>(network: Network<'a>, n: TableLengths) -> Network<'a>
    ensures tills { result.tills.now ≡ take n.tills network.entry.tills.now }
    ensures keys { result.keys.now ≡ take n.keys network.entry.keys.now }
    ensures prices { result.prices.now ≡ take n.prices network.entry.prices.now }
    ensures seen { result.seen.now ≡ take n.seen network.entry.seen.now }
    ensures waiting { result.waiting.now ≡ take n.waiting network.entry.waiting.now }
    ensures rings { result.rings.now ≡ take n.rings network.entry.rings.now }
    ensures log { result.log.now ≡ take n.log network.entry.log.now }
{
    let Network {
        setup,
        net,
        names,
        tills,
        words,
        keys,
        prices,
        seen,
        waiting,
        rings,
        rules,
        blocks,
        log,
        out,
    } = network;
    Network {
        setup,
        net,
        names,
        tills: front(tills, n.tills as usize),
        words,
        keys: front(keys, n.keys as usize),
        prices: front(prices, n.prices as usize),
        seen: front(seen, n.seen as usize),
        waiting: front(waiting, n.waiting as usize),
        rings: front(rings, n.rings as usize),
        rules,
        blocks,
        log: front(log, n.log as usize),
        out,
    }
}

// Opens a network in tables of its lengths; its names are kept where it is accepted. Over 40 lines: the tables one by one, as C's call takes them.
fn open_in(o: Opening, fresh: &[u8], network: Network<'_>) -> Result<(), Refusal> {
    let Network {
        setup,
        net,
        names,
        tills,
        words,
        keys,
        prices,
        seen,
        waiting,
        rings,
        rules,
        blocks,
        log,
        out,
    } = network;
    call_open::open_network(
        config(o),
        sizes(o),
        plan(o),
        o.seed,
        part(fresh, ask_rows::NAMES_WIDTH, KEY_END),
        sim_lend::part(out, o.tills as usize),
        part(fresh, 0, ask_rows::NAMES_WIDTH),
        setup,
        net,
        tills,
        words,
        keys,
        prices,
        seen,
        waiting,
        rings,
        rules,
        blocks,
        log,
    )?;
    copied(names, fresh);
    Ok(())
}

// Opens a network in front parts of the tables that have its sizes; its masks stand in `out`, its names and its key in `fresh`.
pub fn opened(o: Opening, fresh: &[u8], network: Network<'_>) -> Result<(), Refusal> {
    let n = ask_opening::table_sizes(sizes(o), plan(o))?;
    open_in(o, fresh, fitted(network, n))
}
