// Question 1: have the lent tables the opening's sizes? The sizes may be any numbers here, so no product is worked out that might not fit.
ghost use Rattle.std.specs.Prelude.{◌≡◌};
ghost use Rattle.spec_network.specs.Lists.{every};
ghost use Rattle.spec_network.specs.Open.{lengths_of};
ghost use Rattle.ask_opening.specs.Given.{sized, key_words};
ghost use Rattle.ask_opening.specs.Asked.{front_tests, back_tests, table_tests, given_tests, fits_prices};

use crate::{NetworkSizes, RegionPlan, TableLengths};
use ask_opening_parts::is_sum;

// Bytes of the fault stream's key.
pub const KEY: usize = 32;

// Cells of a type's rings.
pub const RINGS: u64 = (table_rings::SCOPES * table_rings::SIZE) as u64;

// Without a plan there are no prices.
fn prices_fit(n: u64, plan: RegionPlan, tills: u64) -> bool
    ensures { result ≡ fits_prices n plan tills }
{
    if plan.planned == 0 {
        return n == 0;
    }
    if plan.regions == 0 {
        return is_sum(n, tills, ask_rows::LINK_WIDTH as u64, 1, 1);
    }
    is_sum(
        n,
        tills,
        ask_rows::LINK_WIDTH as u64,
        plan.regions,
        plan.regions,
    )
}

// The lengths of the tables from `setup` to `prices`.
#[tactic(auto, unfolding(crate::specs::Asked::fits_prices))]
fn front_fit(sizes: NetworkSizes, plan: RegionPlan, n: TableLengths) -> bool
    ensures { result ≡ every (front_tests (lengths_of (sized sizes plan)) n) }
{
    let tills = sizes.tills;
    n.setup == ask_tables::SETUP_WIDTH as u64
        && n.net == ask_tables::NET_WIDTH as u64
        && n.names == ask_rows::NAMES_WIDTH as u64
        && is_sum(n.tills, 0, ask_tables::TILL_WIDTH as u64, tills, 1)
        && n.words == ask_tables::LINKS as u64
        && is_sum(n.keys, 0, ask_tables::LINK_KEY_WIDTH, tills, tills)
        && prices_fit(n.prices, plan, tills)
}

// And from `seen` to `log`.
fn back_fit(sizes: NetworkSizes, plan: RegionPlan, n: TableLengths) -> bool
    ensures { result ≡ every (back_tests (lengths_of (sized sizes plan)) n) }
{
    let record = table_delivery::WIDTH as u64;
    is_sum(n.seen, sizes.tills, 1, sizes.tills, sizes.seen)
        && is_sum(n.waiting, 0, table_waiting::WIDTH as u64, sizes.waiting, 1)
        && is_sum(n.rings, 0, RINGS, sizes.types, 1)
        && n.rules == (fault_rules::SLOTS * fault_rules::WIDTH) as u64
        && n.blocks == (fault_blocks::SLOTS * fault_blocks::WIDTH) as u64
        && is_sum(n.log, table_log::RECORDS as u64, record, sizes.log, 1)
}

// The tables' lengths.
pub fn tables_fit(sizes: NetworkSizes, plan: RegionPlan, n: TableLengths) -> bool
    ensures { result ≡ every (table_tests (lengths_of (sized sizes plan)) n) }
{
    front_fit(sizes, plan, n) && back_fit(sizes, plan, n)
}

// The fault stream's key, and a mask for each till.
pub fn given_fit(sizes: NetworkSizes, key: &[u8], masks: &[u64]) -> bool
    ensures { result ≡ every (given_tests sizes.tills (key_words key.now) masks.now) }
{
    key.len() == KEY && masks.len() as u64 == sizes.tills
}
