// Flush as a C function: C lends each table by itself.
ghost use Rattle.call_flush.specs.Call.{DoesFlush};

use call_flush::Flushed;

// Moves every copy due at a time: rows to the output, or drops.
#[unsafe(no_mangle)]
pub extern "C" fn gossip_flush(
    setup: &[u64],
    net: &mut [u64],
    tills: &[u64],
    seen: &mut [u64],
    waiting: &mut [u64],
    blocks: &[u64],
    log: &mut [u64],
    out: &mut [u64],
    at: u64,
) -> Flushed
    ensures { DoesFlush
        setup.now net.old tills.now seen.old waiting.old blocks.now log.old
        net.new seen.new waiting.new log.new
        at result
        out.old out.new }
{
    Flushed::from(call_flush::flush(setup, net, tills, seen, waiting, blocks, log, out, at))
}
