// Accept as a C function: C lends each table by itself.
ghost use Rattle.call_accept.specs.Accepting.{DoesAccept, call_of};

use call_accept::{Accepted, Entry, FixedTables};

// Takes an entry of a till's outbox. Over 40 lines: the C interface has twenty parameters.
#[unsafe(no_mangle)]
pub extern "C" fn gossip_accept(
    setup: &[u64],
    net: &mut [u64],
    names: &[u8],
    tills: &[u64],
    words: &mut [u64],
    keys: &[u32],
    prices: &[u64],
    seen: &mut [u64],
    waiting: &mut [u64],
    rings: &mut [u64],
    rules: &mut [u64],
    blocks: &[u64],
    wire: &[u8],
    from: u64,
    at: u64,
    kind: u64,
    class: u64,
    scope: u64,
    tag: u64,
    opens: u64,
) -> Accepted
    ensures { DoesAccept
        setup.now net.old names.now tills.now words.old keys.now
        prices.now seen.old waiting.old rings.old rules.old blocks.now
        net.new words.new seen.new waiting.new rings.new rules.new
        (call_of wire.now «from» at kind «class» scope tag opens) result }
{
    let fixed = FixedTables {
        setup,
        tills,
        keys,
        prices,
        blocks,
    };
    let entry = Entry {
        wire,
        from,
        at,
        kind,
        class,
        scope,
        tag,
    };
    Accepted::from(call_accept::accept(
        fixed,
        net,
        names,
        words,
        seen,
        waiting,
        rings,
        rules,
        entry,
        opens != 0,
    ))
}
