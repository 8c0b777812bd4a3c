// A flush's work once no question refused it: one pass over the due copies, which stand at the front of waiting. Each lands as a row, or is dropped.
#![tactic(auto)]

ghost use Rattle.std.specs.Prelude.{◌≡◌, ◌+◌, ◌*◌, ◌≤◌, ◌<◌, length};
ghost use Rattle.table_shift.specs.Shift.{put_words};
ghost use Rattle.table_waiting.specs.Waiting.{copies};
ghost use Rattle.table_ring.specs.Ring.{most};
ghost use Rattle.spec_network.specs.Lists.{bit};
ghost use Rattle.spec_network.specs.Writes.{row_width, row_words};
ghost use Rattle.call_flush_pass.specs.Pass.{flush_view, cleared_one, dropped_more, handled_by, row_as, Near, Rooms, Countable, SeenRoom, LogRoom, Due, Turned, Landed, Passed};

use ask_tables::Till;
use table_rows::Row;
use table_waiting::Copy;

// How many words a row of the output has.
pub const ROW: usize = table_waiting::WIDTH + 2;

// Where a row has its handlers.
const GOSSIP: usize = table_waiting::WIDTH;

const HOST: usize = table_waiting::WIDTH + 1;

// What a flush goes by: tills, seen slots of each, log slots, and how many block windows stand.
#[derive(Clone, Copy)]
pub struct Extents {
    pub tills: usize,
    pub slots: usize,
    pub log: usize,
    pub windows: usize,
}

// The tables that a flush goes by and leaves alone, and how much of each table counts. Those that it writes stay parameters, here and in `call_flush`:
// a struct of them would be made anew, field by field, at each call that is lent two of them (`call_offer`): no plainer.
#[derive(Clone, Copy)]
pub struct FixedTables<'a> {
    pub tills: &'a [u64],
    pub blocks: &'a [u64],
    pub extents: Extents,
}

// Whether a gossip and a host handler take a row.
#[derive(Clone, Copy)]
pub struct Taken {
    pub gossip: bool,
    pub host: bool,
}

// Rows, those of them with a handler, and drops.
#[derive(Clone, Copy)]
pub struct Moved {
    pub rows: usize,
    pub delivered: usize,
    pub dropped: usize,
}

impl FixedTables<'_> {
    ghost use Rattle.call_flush_pass.specs.Pass.{Room, Near, flush_view, taken_by};
    ghost use Rattle.spec_network.specs.Flush.{stops};
    ghost use Rattle.std.specs.Prelude.{◌≡◌};

    // Blocks at the copy's own time, tills as they are now.
    fn is_stopped(self, c: Copy) -> bool
        requires { Room self.extents self.tills.now self.blocks.now × Near self.extents c }
        ensures { result ≡ stops (flush_view self.entry.extents self.entry.tills.now self.entry.blocks.now) c }
    {
        let d = c.delivery;
        call_stopped::stopped(
            self.tills,
            self.blocks,
            self.extents.windows,
            d.from as usize,
            d.to as usize,
            d.time,
        )
    }

    // A host handler takes global entries only.
    fn handlers_of(self, c: Copy) -> Taken
        requires { Room self.extents self.tills.now self.blocks.now × Near self.extents c }
        ensures { result ≡ taken_by self.entry.extents.tills self.entry.tills.now c }
    {
        let d = c.delivery;
        let till = Till::get(self.tills, d.to as usize * ask_tables::TILL_WIDTH);
        let gossip = fault_rule::has(till.gossip, d.kind);
        if d.scope != ask_tables::GLOBAL {
            return Taken {
                gossip,
                host: false,
            };
        }
        let host = fault_rule::has(till.host, d.kind);
        Taken { gossip, host }
    }
}

// A row's words, stored from b.
fn put_row(out: &mut [u64], b: usize, c: Copy, k: Taken)
    requires { b + row_width ≤ length out.old }
    ensures { out.new ≡ put_words out.old b (row_words (row_as c k)) }
{
    c.put(out, b);
    out[b + GOSSIP] = u64::from(k.gossip);
    out[b + HOST] = u64::from(k.host);
}

// A dropped original loses its mark, and the till's count follows.
fn clear_mark(seen: &mut [u64], z: Extents, c: Copy)
    requires { (c.delivery.to < z.tills) × (SeenRoom z.tills z.slots seen.old) }
    ensures { seen.new ≡ cleared_one z.tills z.slots c seen.old }
{
    if c.original == 0 {
        return;
    }
    let at = c.delivery.to as usize;
    let count = seen[at] as usize;
    // The sizes are at hand: `ask_tables::ids_start` reads them of `setup`, which a pass is not lent.
    let left = table_marks::remove(seen, z.tills + at * z.slots, count, c.id);
    seen[at] = left as u64;
}

// One drop more.
#[tactic(auto, unfolding(crate::specs::Pass::dropped_more))]
fn one_dropped(m: Moved) -> Moved
    requires { m.dropped < most }
    ensures { result ≡ dropped_more m }
{
    Moved {
        dropped: m.dropped + 1,
        ..m
    }
}

// Does a handler take it?
#[tactic(auto, unfolding(crate::specs::Pass::handled_by))]
fn is_handled(k: Taken) -> bool
    ensures { bit result ≡ handled_by k }
{
    k.gossip || k.host
}

// The copy's row behind the others, and its delivery into the log.
fn land(log: &mut [u64], out: &mut [u64], z: Extents, c: Copy, k: Taken, m: Moved) -> Moved
    requires { LogRoom z.log log.old × Countable m out.old }
    ensures { Landed z k c m log.old log.new out.old out.new result }
{
    put_row(out, m.rows * ROW, c, k);
    let d = c.delivery;
    table_log::push(log, z.log, d);
    Moved {
        rows: m.rows + 1,
        delivered: m.delivered + usize::from(is_handled(k)),
        dropped: m.dropped,
    }
}

// One due copy: stopped, it is dropped; else it lands.
fn turn(
    fixed: FixedTables,
    seen: &mut [u64],
    log: &mut [u64],
    out: &mut [u64],
    c: Copy,
    m: Moved,
) -> Moved
    requires { Rooms fixed.extents fixed.tills.now fixed.blocks.now seen.old log.old × Near fixed.extents c × Countable m out.old }
    ensures { Turned fixed.entry.extents (flush_view fixed.entry.extents fixed.entry.tills.now fixed.entry.blocks.now) c m
        seen.old seen.new log.old log.new out.old out.new result }
{
    let z = fixed.extents;
    if fixed.is_stopped(c) {
        clear_mark(seen, z, c);
        return one_dropped(m);
    }
    land(log, out, z, c, fixed.handlers_of(c), m)
}

// The first k copies, one after the other.
pub fn pass(
    fixed: FixedTables,
    waiting: &[u64],
    seen: &mut [u64],
    log: &mut [u64],
    out: &mut [u64],
    k: usize,
) -> Moved
    requires { Rooms fixed.extents fixed.tills.now fixed.blocks.now seen.old log.old × Due fixed.extents waiting.now out.old k }
    ensures { Passed fixed.entry.extents (flush_view fixed.entry.extents fixed.entry.tills.now fixed.entry.blocks.now) (copies waiting.now k)
        seen.old seen.new log.old log.new out.old out.new result }
{
    let mut m = Moved {
        rows: 0,
        delivered: 0,
        dropped: 0,
    };
    for i in 0..k {
        let c = Copy::get(waiting, i * table_waiting::WIDTH);
        m = turn(fixed, seen, log, out, c, m);
    }
    m
}
