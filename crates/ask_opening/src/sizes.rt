// The lengths of an opening's tables, for a caller that lends them, with question 2 of the sizes.
ghost use Rattle.std.specs.Prelude.{◌≡◌, ◌≤◌};
ghost use Rattle.link_geography.specs.Geography.{most_regions};
ghost use Rattle.spec_network.specs.Opening.{most_tills};
ghost use Rattle.spec_network.specs.Real.{prices_width};
ghost use Rattle.ask_opening.specs.Given.{sized, plan_of};
ghost use Rattle.ask_opening.specs.Sizes.{table_sizes, sizes_reply};

use crate::{NetworkSizes, RegionPlan, TableLengths, TableSizes, lengths, limits};
use ask_refusal::Refusal;

// The prices: for each pair of regions a base and a rate, for each till its region. Without a plan there are none.
// Its one caller has just asked question 2: the two bounds keep the products below 2^64, and a type for each number would be made for this call alone.
fn prices_length(plan: RegionPlan, tills: u64) -> u64
    requires { (tills ≤ most_tills) × (plan.regions ≤ most_regions) }
    ensures { result ≡ prices_width (plan_of plan) tills }
{
    if plan.planned == 0 {
        return 0;
    }
    if plan.regions == 0 {
        return ask_rows::LINK_WIDTH as u64 + tills;
    }
    ask_rows::LINK_WIDTH as u64 * (plan.regions * plan.regions) + tills
}

impl From<Result<TableLengths, Refusal>> for TableSizes {
    ghost from_gives = { λ r s. s ≡ sizes_reply r };

    // Sizes that are refused answer the number, and no table has an element.
    fn from(outcome: Result<TableLengths, Refusal>) -> TableSizes {
        match outcome {
            Ok(n) => TableSizes {
                number: 0,
                setup: n.setup,
                net: n.net,
                names: n.names,
                tills: n.tills,
                words: n.words,
                keys: n.keys,
                prices: n.prices,
                seen: n.seen,
                waiting: n.waiting,
                rings: n.rings,
                rules: n.rules,
                blocks: n.blocks,
                log: n.log,
            },
            Err(refusal) => TableSizes {
                number: refusal.number(),
                ..TableSizes::default()
            },
        }
    }
}

// How long the tables of an opening are.
pub fn table_sizes(sizes: NetworkSizes, plan: RegionPlan) -> Result<TableLengths, Refusal>
    ensures { sizes_reply result ≡ table_sizes (sized sizes plan) }
{
    if !limits::sizes_admitted(sizes, plan) {
        return Err(Refusal::Sizes);
    }
    let tills = sizes.tills;
    Ok(TableLengths {
        setup: ask_tables::SETUP_WIDTH as u64,
        net: ask_tables::NET_WIDTH as u64,
        names: ask_rows::NAMES_WIDTH as u64,
        tills: tills * ask_tables::TILL_WIDTH as u64,
        words: ask_tables::LINKS as u64,
        keys: tills * tills * ask_tables::LINK_KEY_WIDTH,
        prices: prices_length(plan, tills),
        seen: tills + tills * sizes.seen,
        waiting: sizes.waiting * table_waiting::WIDTH as u64,
        rings: sizes.types * lengths::RINGS,
        rules: (fault_rules::SLOTS * fault_rules::WIDTH) as u64,
        blocks: (fault_blocks::SLOTS * fault_blocks::WIDTH) as u64,
        log: table_log::RECORDS as u64 + sizes.log * table_delivery::WIDTH as u64,
    })
}
