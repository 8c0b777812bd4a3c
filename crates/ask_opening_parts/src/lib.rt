// The parts of the opening's questions that are asked of plain numbers and lists: is a length a sum (1), are type names and shard keys admitted (2), and shard masks (5)?
#![tactic(auto)]

ghost use Rattle.std.specs.Prelude.{◌≡◌, ◌≤◌, nat_lt};
ghost use Rattle.std.specs.List.{list_all};
ghost use Rattle.table_rows.specs.Rows.{all_of};
ghost use Rattle.spec_network.specs.Lists.{within};
ghost use Rattle.spec_network.specs.Opening.{most_shards};

mod sums;
mod texts;

pub use sums::is_sum;
pub use texts::names_admitted;

// Is each mask below the limit?
fn all_below(masks: &[u64], limit: u64) -> bool
    ensures { result ≡ list_all (λ m. nat_lt m limit) masks.now }
{
    masks.iter().all(|mask| *mask < limit)
}

// 5: is no bit of a shard mask set beyond the opening's shards?
pub fn masks_admitted(masks: &[u64], shards: u64) -> bool
    requires { shards ≤ most_shards }
    ensures { result ≡ all_of (λ m. within m shards) masks.now }
{
    all_below(masks, ask_tables::power(shards))
}
