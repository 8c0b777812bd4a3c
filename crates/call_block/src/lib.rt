// The block calls on the network's tables: block, block_during, unblock, is_blocked.
#![tactic(auto)]

ghost use Rattle.call_reply.specs.Reply.{done_reply, test_reply};
ghost use Rattle.call_block.specs.Calls.{DoesBlock, DoesBlockDuring, DoesUnblock, DoesIsBlocked};

use ask_refusal::Refusal;

// One window more, which always holds.
pub fn block(
    setup: &[u64],
    net: &mut [u64],
    blocks: &mut [u64],
    from: u64,
    to: u64,
) -> Result<(), Refusal>
    ensures { DoesBlock
        setup.now net.old blocks.old
        net.new blocks.new
        «from» to (done_reply result) }
{
    ask_block::place(setup, net, blocks, from, to)?;
    let n = net[ask_tables::BLOCKS];
    fault_blocks::block(blocks, n as usize, from, to).unwrap();
    net[ask_tables::BLOCKS] = n + 1;
    Ok(())
}

// One window more, which holds from its start on and not its end.
pub fn block_during(
    setup: &[u64],
    net: &mut [u64],
    blocks: &mut [u64],
    from: u64,
    to: u64,
    start: u64,
    end: u64,
) -> Result<(), Refusal>
    ensures { DoesBlockDuring
        setup.now net.old blocks.old
        net.new blocks.new
        «from» to start end (done_reply result) }
{
    ask_block::window(setup, net, blocks, from, to, start, end)?;
    let n = net[ask_tables::BLOCKS];
    fault_blocks::block_during(blocks, n as usize, from, to, start, end).unwrap();
    net[ask_tables::BLOCKS] = n + 1;
    Ok(())
}

// Every window of the pair goes.
pub fn unblock(
    setup: &[u64],
    net: &mut [u64],
    blocks: &mut [u64],
    from: u64,
    to: u64,
) -> Result<(), Refusal>
    ensures { DoesUnblock
        setup.now net.old blocks.old
        net.new blocks.new
        «from» to (done_reply result) }
{
    ask_block::pair(setup, net, blocks, from, to)?;
    let n = net[ask_tables::BLOCKS];
    let left = fault_blocks::unblock(blocks, n as usize, from, to);
    net[ask_tables::BLOCKS] = left as u64;
    Ok(())
}

// Does a window of the pair hold the time?
pub fn is_blocked(
    setup: &[u64],
    net: &[u64],
    blocks: &[u64],
    from: u64,
    to: u64,
    at: u64,
) -> Result<bool, Refusal>
    ensures { DoesIsBlocked
        setup.now net.now blocks.now
        «from» to at (test_reply result) }
{
    ask_block::time(setup, net, blocks, from, to, at)?;
    let n = net[ask_tables::BLOCKS];
    Ok(fault_blocks::is_blocked(blocks, n as usize, from, to, at))
}
