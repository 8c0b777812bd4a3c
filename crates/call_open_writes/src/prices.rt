// The prices of a plan: base and rate of each pair of regions, then the region of each till.
ghost use Rattle.std.specs.Prelude.{◌≡◌, ◌++◌, ◌+◌, ◌≤◌, length, take, drop, replicate};
ghost use Rattle.table_rows.specs.Lists.{up_to};
ghost use Rattle.link_geography.specs.Geography.{most_regions, region_of, prices_of};
ghost use Rattle.spec_network.specs.Opening.{most_tills};
ghost use Rattle.spec_network.specs.Real.{prices_width};
ghost use Rattle.ask_opening.specs.Given.{plan_of};
ghost use Rattle.call_open_writes.specs.Written.{prices_for};

use crate::fill;
use ask_opening::RegionPlan;

// The pairs, in the first n cells: n is where the regions begin, here and below. Split in two there, write_prices would join the parts again in its proof: no plainer.
// `regions ≤ most_regions` is what link_prices asks, `tills ≤ most_tills` keeps a till's number in a u32, here and below: question 2 has asked both, a type for each would be made for one call.
fn price_pairs(prices: &mut [u64], n: usize, seed: u64, regions: u64)
    requires { (n ≤ length prices.old) × (regions ≤ most_regions) }
    ensures { prices.new ≡ prices_of seed regions (replicate n 0) ++ drop n prices.old }
{
    fill::clear(prices, n);
    link_prices::price_links(&mut prices[0..n], seed, regions);
}

// The regions of `tills` tills, behind the first n cells.
fn write_regions(prices: &mut [u64], n: usize, seed: u64, regions: u64, tills: u64)
    requires { (tills ≤ most_tills) × (length prices.old ≡ n + tills) }
    ensures { prices.new ≡ take n prices.old ++ up_to tills (λ t. region_of seed regions t) }
{
    for t in 0..tills {
        prices[n + t as usize] = link_geography::region_of(seed, regions, t as u32);
    }
}

// Nothing without a plan.
pub fn write_prices(prices: &mut [u64], plan: RegionPlan, tills: u64)
    requires { (tills ≤ most_tills) × (plan.regions ≤ most_regions) × (length prices.old ≡ prices_width (plan_of plan) tills) }
    ensures { prices.new ≡ prices_for (plan_of plan) tills }
{
    if plan.planned == 0 {
        return;
    }
    let pairs = prices.len() - tills as usize;
    price_pairs(prices, pairs, plan.seed, plan.regions);
    write_regions(prices, pairs, plan.seed, plan.regions, tills);
}
