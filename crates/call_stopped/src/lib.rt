// Is a message from one till to another stopped: by an end that is down, or by a block at that time? Accept asks it at now, a flush at the copy's own time.
#![tactic(auto)]

ghost use Rattle.std.specs.Prelude.{◌≡◌, ℕ, ◌*◌, ◌<◌, ◌≤◌, length};
ghost use Rattle.fault_blocks.specs.Blocks.{block_width};
ghost use Rattle.spec_network.specs.Tables.{till_form};
ghost use Rattle.call_stopped.specs.Stopped.{up_at, stopped_by};

// Is the till up?
// `t * width < length`, here and below: by `ask_tables::cell` the product would still need a bound, or it could overflow, so nothing less would be asked.
// Nor by `Till::get`: it asks for a whole row, so that `stopped` would ask more of its callers than the row's first word.
fn is_up(tills: &[u64], t: usize) -> bool
    requires { t * till_form.width < length tills.now }
    ensures { result ≡ up_at tills.now t }
{
    tills[t * ask_tables::TILL_WIDTH] != 0
}

// Stopped by an end that is down, or by one of the windows at that time. `windows` counts rows in use of a table as long as its slots, as fault_blocks takes them.
pub fn stopped(
    tills: &[u64],
    blocks: &[u64],
    windows: usize,
    from: usize,
    to: usize,
    at: u64,
) -> bool
    requires { («from» * till_form.width < length tills.now) × (to * till_form.width < length tills.now) × (windows * block_width ≤ length blocks.now) }
    ensures { result ≡ stopped_by tills.now blocks.now windows «from» to at }
{
    if !is_up(tills, from) {
        return true;
    }
    if !is_up(tills, to) {
        return true;
    }
    fault_blocks::is_blocked(blocks, windows, from as u64, to as u64, at)
}
