// The flush on the network's tables: questions 1, 7 and 14, then one pass over the due copies.
#![tactic(auto)]

ghost use Rattle.std.specs.Prelude.{◌≡◌};
ghost use Rattle.ask_refusal.specs.Refusals.{asked};
ghost use Rattle.call_flush.specs.Call.{DoesFlush, flush_lent, flush_number, extents_at, flushed_by, flushed_reply, Ready, Worked};

use ask_refusal::Refusal;
use call_flush_pass::{Extents, FixedTables, Moved};

// A flush as C gets it: the number of the question that refused it, or 0; rows, those of them with a handler, and drops.
#[repr(C)]
#[derive(Clone, Copy, Default)]
pub struct Flushed {
    pub number: u64,
    pub rows: u64,
    pub delivered: u64,
    pub dropped: u64,
}

#[tactic(auto, unfolding(crate::specs::Call::flushed_by))]
impl From<Result<Moved, Refusal>> for Flushed {
    ghost from_gives = { λ r f. f ≡ flushed_reply r };

    // C gets a number, 0 where no question refused; a refusal answers zeros.
    fn from(outcome: Result<Moved, Refusal>) -> Flushed {
        match outcome {
            Ok(moved) => Flushed {
                number: 0,
                rows: moved.rows as u64,
                delivered: moved.delivered as u64,
                dropped: moved.dropped as u64,
            },
            Err(refusal) => Flushed {
                number: refusal.number(),
                ..Flushed::default()
            },
        }
    }
}

// The tables that a flush goes by and leaves alone. Those that it writes stay parameters: `call_flush_pass::FixedTables` says why.
#[derive(Clone, Copy)]
struct ReadTables<'a> {
    setup: &'a [u64],
    tills: &'a [u64],
    blocks: &'a [u64],
}

// Question 1.
#[tactic(auto, unfolding(crate::specs::Call::flush_lent, crate::specs::Call::rows_lent))]
fn lent(read: ReadTables, net: &[u64], seen: &[u64], waiting: &[u64], log: &[u64]) -> bool
    ensures { result ≡ flush_lent
        read.entry.setup.now net.now read.entry.tills.now seen.now waiting.now read.entry.blocks.now log.now }
{
    let setup = read.setup;
    ask_tables::setup_held(setup)
        && ask_tables::net_held(setup, net)
        && ask_tables::tills_held(setup, read.tills)
        && ask_tables::seen_held(setup, seen)
        && ask_rows::waiting_held(setup, net, waiting)
        && ask_tables::blocks_held(setup, net, read.blocks)
        && ask_rows::log_held(setup, log)
}

// Questions 1 and 7.
fn refusal(
    read: ReadTables,
    net: &[u64],
    seen: &[u64],
    waiting: &[u64],
    log: &[u64],
    at: u64,
) -> Result<(), Refusal>
    ensures { asked result ≡ flush_number
        read.entry.setup.now net.now read.entry.tills.now seen.now waiting.now read.entry.blocks.now log.now
        at 0 }
{
    if !lent(read, net, seen, waiting, log) {
        return Err(Refusal::Tables);
    }
    if ask_tables::LATEST < at {
        return Err(Refusal::Time);
    }
    Ok(())
}

// The first k waiting copies land or are dropped; then they are gone from waiting.
fn work(
    fixed: FixedTables,
    net: &mut [u64],
    seen: &mut [u64],
    waiting: &mut [u64],
    log: &mut [u64],
    out: &mut [u64],
    k: usize,
) -> Moved
    requires { Ready fixed.extents k net.old fixed.tills.now seen.old waiting.old fixed.blocks.now log.old out.old }
    ensures { Worked fixed.entry.extents k
        net.old fixed.entry.tills.now seen.old waiting.old fixed.entry.blocks.now log.old
        net.new seen.new waiting.new log.new
        (flushed_by result)
        out.old out.new }
{
    let m = call_flush_pass::pass(fixed, waiting, seen, log, out, k);
    let n = net[ask_tables::WAITING] as usize;
    table_waiting::drop_front(waiting, n, k);
    net[ask_tables::WAITING] = (n - k) as u64;
    m
}

// How many tills, seen slots, log slots and block windows the tables say there are.
fn extents(setup: &[u64], net: &[u64]) -> Extents
    ensures { result ≡ extents_at setup.now net.now }
{
    Extents {
        tills: ask_tables::cell(setup, ask_tables::TILLS) as usize,
        slots: ask_tables::cell(setup, ask_tables::SEEN_SLOTS) as usize,
        log: ask_tables::cell(setup, ask_tables::LOG_SLOTS) as usize,
        windows: ask_tables::cell(net, ask_tables::BLOCKS) as usize,
    }
}

// The waiting copies whose time has come, by time, then sequence: each lands as a row of out, or is dropped.
// The three that are only read come one by one: `setup` ends here and `call_flush_pass` takes the other two, so that a caller's struct would be taken apart.
pub fn flush(
    setup: &[u64],
    net: &mut [u64],
    tills: &[u64],
    seen: &mut [u64],
    waiting: &mut [u64],
    blocks: &[u64],
    log: &mut [u64],
    out: &mut [u64],
    at: u64,
) -> Result<Moved, Refusal>
    ensures { DoesFlush
        setup.now net.old tills.now seen.old waiting.old blocks.now log.old
        net.new seen.new waiting.new log.new
        at (flushed_reply result)
        out.old out.new }
{
    let read = ReadTables {
        setup,
        tills,
        blocks,
    };
    refusal(read, net, seen, waiting, log, at)?;
    let k = table_waiting::due(waiting, net[ask_tables::WAITING] as usize, at);
    if out.len() / call_flush_pass::ROW < k {
        return Err(Refusal::Rows);
    }
    let fixed = FixedTables {
        tills,
        blocks,
        extents: extents(setup, net),
    };
    Ok(work(fixed, net, seen, waiting, log, out, k))
}
