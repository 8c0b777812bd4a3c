// The block and rule calls as C functions. `gossip_block` and `gossip_unblock` are alike because C calls each by its name.
ghost use Rattle.call_block.specs.Calls.{DoesBlock, DoesBlockDuring, DoesIsBlocked, DoesUnblock};
ghost use Rattle.call_rule.specs.Calls.{DoesDecide, DoesFired, DoesInstall, DoesRemove};

use call_reply::{Done, Value};

// Blocks a directed pair of tills.
#[unsafe(no_mangle)]
pub extern "C" fn gossip_block(
    setup: &[u64],
    net: &mut [u64],
    blocks: &mut [u64],
    from: u64,
    to: u64,
) -> Done
    ensures { DoesBlock
        setup.now net.old blocks.old
        net.new blocks.new
        «from» to result }
{
    Done::from(call_block::block(setup, net, blocks, from, to))
}

// Blocks a directed pair for a window.
#[unsafe(no_mangle)]
pub extern "C" fn gossip_block_during(
    setup: &[u64],
    net: &mut [u64],
    blocks: &mut [u64],
    from: u64,
    to: u64,
    start: u64,
    end: u64,
) -> Done
    ensures { DoesBlockDuring
        setup.now net.old blocks.old
        net.new blocks.new
        «from» to start end result }
{
    Done::from(call_block::block_during(setup, net, blocks, from, to, start, end))
}

// Takes every window of a pair away.
#[unsafe(no_mangle)]
pub extern "C" fn gossip_unblock(
    setup: &[u64],
    net: &mut [u64],
    blocks: &mut [u64],
    from: u64,
    to: u64,
) -> Done
    ensures { DoesUnblock
        setup.now net.old blocks.old
        net.new blocks.new
        «from» to result }
{
    Done::from(call_block::unblock(setup, net, blocks, from, to))
}

// Is a pair blocked at a time?
#[unsafe(no_mangle)]
pub extern "C" fn gossip_is_blocked(
    setup: &[u64],
    net: &[u64],
    blocks: &[u64],
    from: u64,
    to: u64,
    at: u64,
) -> Value
    ensures { DoesIsBlocked
        setup.now net.now blocks.now
        «from» to at result }
{
    Value::from(call_block::is_blocked(setup, net, blocks, from, to, at))
}

// Installs the rule of a drop card.
#[unsafe(no_mangle)]
pub extern "C" fn gossip_install(
    setup: &[u64],
    net: &mut [u64],
    rules: &mut [u64],
    card: &[u8],
) -> Value
    ensures { DoesInstall
        setup.now net.old rules.old
        net.new rules.new
        card.now result }
{
    Value::from(call_rule::install(setup, net, rules, card))
}

// Removes a rule; its last fired count.
#[unsafe(no_mangle)]
pub extern "C" fn gossip_remove(setup: &[u64], net: &mut [u64], rules: &mut [u64], id: u64) -> Value
    ensures { DoesRemove
        setup.now net.old rules.old
        net.new rules.new
        id result }
{
    Value::from(call_rule::remove(setup, net, rules, id))
}

// How often a rule has fired.
#[unsafe(no_mangle)]
pub extern "C" fn gossip_fired(setup: &[u64], net: &[u64], rules: &[u64], id: u64) -> Value
    ensures { DoesFired
        setup.now net.now rules.now
        id result }
{
    Value::from(call_rule::fired(setup, net, rules, id))
}

// What the rules say of a message.
#[unsafe(no_mangle)]
pub extern "C" fn gossip_decide(
    setup: &[u64],
    net: &mut [u64],
    rules: &mut [u64],
    from: u64,
    to: u64,
    kind: u64,
    tier: u64,
    at: u64,
) -> Value
    ensures { DoesDecide
        setup.now net.old rules.old
        net.new rules.new
        «from» to kind tier at result }
{
    Value::from(call_rule::decide(setup, net, rules, from, to, kind, tier, at))
}
