// The blocks of a network: windows during which a directed pair of tills is cut, rows of a lent table.
// A table and how many of its rows are in use stay two parameters: a window more is put behind those rows, and a function that took only their part would be called with a slice
// whose rows must be shown to be the table's first n, at each call: no plainer.
// So `n * block_width ≤ length ws` and `block_slots * block_width ≤ length ws` stand at each function: one is of the rows in use, the other of all.
#![tactic(auto)]

ghost use Rattle.std.specs.Prelude.{◌≡◌, ◌+◌, ◌*◌, ◌≤◌, ◌<◌, length, refl};
ghost use Rattle.fault_blocks.specs.Blocks.{block_width, block_slots, form, exact, blocks_of, always, during, window_of, joins, stops, blocked, open_count, number_in, block_number, block_table, unblock_table};

use fault_rule::TimeWindow;
use table_rows::Row;

// The words of a row, and the windows that may stand at a time.
pub const WIDTH: usize = 5;

pub const SLOTS: usize = 256;

// No place is free for a window.
#[derive(Clone, Copy, Debug, PartialEq, Eq)]
pub struct Full;

// One window of a pair; bounded is 0 where it always holds. A row of lent words, which may hold any word: `window` says what they mean.
#[derive(Clone, Copy)]
pub struct BlockWindow {
    pub from: u64,
    pub to: u64,
    pub bounded: u64,
    pub start: u64,
    pub end: u64,
}

impl Row for BlockWindow {
    ghost form = { form };

    ghost WIDTH = { block_width };

    const WIDTH: usize = WIDTH;

    fn get(ws: &[u64], b: usize) -> BlockWindow {
        BlockWindow {
            from: ws[b],
            to: ws[b + 1],
            bounded: ws[b + 2],
            start: ws[b + 3],
            end: ws[b + 4],
        }
    }

    fn put(self, ws: &mut [u64], b: usize) {
        ws[b] = self.from;
        ws[b + 1] = self.to;
        ws[b + 2] = self.bounded;
        ws[b + 3] = self.start;
        ws[b + 4] = self.end;
    }

    ghost exact = { exact };

    ghost wide = { refl };
}

impl BlockWindow {
    // A window of the pair that always holds.
    fn always(from: u64, to: u64) -> BlockWindow
        ensures { result ≡ always «from» to }
    {
        BlockWindow {
            from,
            to,
            bounded: 0,
            start: 0,
            end: 0,
        }
    }

    // A window of the pair from a start up to an end.
    fn during(from: u64, to: u64, start: u64, end: u64) -> BlockWindow
        ensures { result ≡ during «from» to start end }
    {
        BlockWindow {
            from,
            to,
            bounded: 1,
            start,
            end,
        }
    }

    // When does it hold?
    #[tactic(auto, unfolding(crate::specs::Blocks::window_of))]
    fn window(self) -> TimeWindow
        ensures { result ≡ window_of self }
    {
        if self.bounded == 0 {
            return TimeWindow::Always;
        }
        TimeWindow::During {
            start: self.start,
            end: self.end,
        }
    }

    // Is it a block from one till to the other?
    #[tactic(auto, unfolding(crate::specs::Blocks::joins))]
    fn joins(self, from: u64, to: u64) -> bool
        ensures { result ≡ joins «from» to self }
    {
        self.from == from && self.to == to
    }

    // Does it stop a message between the two at this time?
    #[tactic(auto, unfolding(crate::specs::Blocks::stops))]
    fn stops(self, from: u64, to: u64, at: u64) -> bool
        ensures { result ≡ stops «from» to at self }
    {
        self.joins(from, to) && self.window().holds(at)
    }
}

// Does one of the first n windows stop a message between the two at this time? By hand: by `table_rows::all` it is a double no, none of them does not stop it.
pub fn is_blocked(ws: &[u64], n: usize, from: u64, to: u64, at: u64) -> bool
    requires { n * block_width ≤ length ws.now }
    ensures { result ≡ blocked «from» to at (blocks_of ws.now n) }
{
    for i in 0..n {
        if BlockWindow::get(ws, i * WIDTH).stops(from, to, at) {
            return true;
        }
    }
    false
}

// The window stands last, if a place is free (question 12).
fn add(ws: &mut [u64], n: usize, e: BlockWindow) -> Result<(), Full>
    requires { block_slots * block_width ≤ length ws.old }
    ensures { (number_in result ≡ block_number n) × (ws.new ≡ block_table ws.old n e) }
{
    if SLOTS <= n {
        return Err(Full);
    }
    e.put(ws, n * WIDTH);
    Ok(())
}

// A window more, which always holds.
pub fn block(ws: &mut [u64], n: usize, from: u64, to: u64) -> Result<(), Full>
    requires { block_slots * block_width ≤ length ws.old }
    ensures { (number_in result ≡ block_number n) × (ws.new ≡ block_table ws.old n (always «from» to)) }
{
    add(ws, n, BlockWindow::always(from, to))
}

// A window more, from its start up to its end.
pub fn block_during(
    ws: &mut [u64],
    n: usize,
    from: u64,
    to: u64,
    start: u64,
    end: u64,
) -> Result<(), Full>
    requires { block_slots * block_width ≤ length ws.old }
    ensures { (number_in result ≡ block_number n) × (ws.new ≡ block_table ws.old n (during «from» to start end)) }
{
    add(ws, n, BlockWindow::during(from, to, start, end))
}

// Every window of the pair goes; the others move down. Answers how many are left.
pub fn unblock(ws: &mut [u64], n: usize, from: u64, to: u64) -> usize
    requires { n * block_width ≤ length ws.old }
    ensures { (result ≡ open_count «from» to ws.old n) × (ws.new ≡ unblock_table «from» to ws.old n) }
{
    let mut k: usize = 0;
    for i in 0..n {
        let e = BlockWindow::get(ws, i * WIDTH);
        if !e.joins(from, to) {
            e.put(ws, k * WIDTH);
            k += 1;
        }
    }
    k
}
