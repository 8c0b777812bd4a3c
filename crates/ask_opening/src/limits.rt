// Question 2, of the sizes.
ghost use Rattle.std.specs.Prelude.{◌≡◌};
ghost use Rattle.spec_network.specs.Lists.{every};
ghost use Rattle.spec_network.specs.Limits.{size_tests};
ghost use Rattle.ask_opening.specs.Given.{sized};

use crate::{NetworkSizes, RegionPlan};

// Are the sizes within limits?
pub fn sizes_admitted(sizes: NetworkSizes, plan: RegionPlan) -> bool
    ensures { result ≡ every (size_tests (sized sizes plan)) }
{
    ask_tables::sizes_within(
        sizes.tills,
        sizes.types,
        sizes.classes,
        sizes.shards,
        sizes.seen,
        sizes.waiting,
        sizes.log,
        plan.regions,
    )
}
