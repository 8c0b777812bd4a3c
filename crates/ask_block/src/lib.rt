// The questions of the block calls, in order: 1 and 4, then 12, 12 and 18, or 7. The tables stay as they are.
#![tactic(auto)]

ghost use Rattle.std.specs.Prelude.{◌≡◌};
ghost use Rattle.ask_refusal.specs.Refusals.{asked};
ghost use Rattle.ask_block.specs.Questions.{blocks_lent, pair_number, free_number, window_number, during_number, now_number};

use ask_refusal::Refusal;
use fault_rule::TimeWindow;

// Question 1.
#[tactic(auto, unfolding(crate::specs::Questions::blocks_lent))]
fn lent(setup: &[u64], net: &[u64], blocks: &[u64]) -> bool
    ensures { result ≡ blocks_lent setup.now net.now blocks.now }
{
    ask_tables::setup_held(setup)
        && ask_tables::net_held(setup, net)
        && ask_tables::blocks_held(setup, net, blocks)
}

// Questions 1 and 4: the tables, and the two tills.
#[tactic(auto, unfolding(crate::specs::Questions::pair_number))]
pub fn pair(setup: &[u64], net: &[u64], blocks: &[u64], from: u64, to: u64) -> Result<(), Refusal>
    ensures { asked result ≡ pair_number setup.now net.now blocks.now «from» to 0 }
{
    if !lent(setup, net, blocks) {
        return Err(Refusal::Tables);
    }
    if ask_tables::cell(setup, ask_tables::TILLS) <= from.max(to) {
        return Err(Refusal::Till);
    }
    Ok(())
}

// Questions 1, 4 and 12: is a place free?
pub fn place(setup: &[u64], net: &[u64], blocks: &[u64], from: u64, to: u64) -> Result<(), Refusal>
    ensures { asked result ≡ pair_number setup.now net.now blocks.now «from» to (free_number net.now) }
{
    pair(setup, net, blocks, from, to)?;
    if fault_blocks::SLOTS as u64 <= ask_tables::cell(net, ask_tables::BLOCKS) {
        return Err(Refusal::Places);
    }
    Ok(())
}

// Questions 1, 4, 12 and 18: is the window's end after its start?
pub fn window(
    setup: &[u64],
    net: &[u64],
    blocks: &[u64],
    from: u64,
    to: u64,
    start: u64,
    end: u64,
) -> Result<(), Refusal>
    ensures { asked result ≡ pair_number setup.now net.now blocks.now «from» to (during_number net.now start end) }
{
    place(setup, net, blocks, from, to)?;
    let window = TimeWindow::During { start, end };
    if !window.is_forward() {
        return Err(Refusal::Window);
    }
    Ok(())
}

// Questions 1, 4 and 7.
pub fn time(
    setup: &[u64],
    net: &[u64],
    blocks: &[u64],
    from: u64,
    to: u64,
    at: u64,
) -> Result<(), Refusal>
    ensures { asked result ≡ pair_number setup.now net.now blocks.now «from» to (now_number at) }
{
    pair(setup, net, blocks, from, to)?;
    if at > ask_tables::LATEST {
        return Err(Refusal::Time);
    }
    Ok(())
}
