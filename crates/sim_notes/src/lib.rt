// The notes that a run of a script takes: behind each line, from its words, its outcome, and how many marks the tables count.
// `due` holds the copies that a flush keeps for its answer.
#![tactic(auto)]

ghost use Rattle.std.specs.Prelude.{◌≡◌, ◌+◌, ◌≤◌};
ghost use Rattle.spec_network.specs.Opening.{most_classes, most_slots};
ghost use Rattle.sim_notes.specs.Noted as noted;

use ask_refusal::Refusal;
use ask_tables::{MOST_SLOTS, cell};
use call_log::Tallied;
use call_reply::Value;
use sim_figures::{Figures, Five, Said, Tally};
use sim_lend::Network;
use sim_outcome::Outcome;
use sim_script::{Accept, Call, Change};

// Where a copy has its sequence. By its place, since `cell` reads 0 behind the end of a table; a Copy asks for all of its words.
const SEQUENCE: usize = table_delivery::WIDTH;

const CLASSES: u64 = ask_tables::MOST_CLASSES;

// How many words the due copies have.
pub const WIDTH: usize = MOST_SLOTS as usize * table_waiting::WIDTH;

// How many marks stand, of all tills.
pub fn marks(setup: &[u64], seen: &[u64]) -> u64
    ensures { result ≡ noted.marks_in setup.now seen.now }
{
    let n = cell(setup, ask_tables::TILLS).min(ask_tables::MOST_TILLS);
    let mut total: u64 = 0;
    for t in 0..n {
        total = total.wrapping_add(cell(seen, t as usize));
    }
    total
}

// How many words of the log's table an opening uses.
fn log_size(setup: &[u64]) -> usize
    ensures { result ≡ noted.log_words setup.now }
{
    let slots = cell(setup, ask_tables::LOG_SLOTS).min(MOST_SLOTS) as usize;
    table_log::RECORDS + slots * table_delivery::WIDTH
}

// The tally of a class.
fn tally(figures: &mut Figures, setup: &[u64], log: &[u64], class: u64)
    ensures { figures.new ≡ noted.class_tallied figures.old setup.now log.now «class» }
{
    let t = Tallied::from(call_log::tally_of(setup, log, class));
    let tally = Tally {
        deliveries: t.deliveries,
        bytes: t.bytes,
    };
    figures.tallied(class, tally);
}

// The tallies of every class, in a log of the opening's size.
fn tallies_of(figures: &mut Figures, setup: &[u64], log: &[u64])
    ensures { figures.new ≡ noted.tallies_of figures.old setup.now log.now most_classes }
{
    for class in 0..CLASSES {
        tally(figures, setup, log, class);
    }
}

// The log's tallies of every class.
fn tallies(figures: &mut Figures, setup: &[u64], log: &[u64])
    ensures { figures.new ≡ noted.tallies_note figures.old setup.now log.now }
{
    tallies_of(figures, setup, sim_lend::part(log, log_size(setup)));
}

// Before a line: a drain takes the tallies away.
#[tactic(auto, unfolding(crate::specs::Noted::before_note))]
pub fn before(figures: &mut Figures, call: Call<'_>, setup: &[u64], log: &[u64])
    ensures { figures.new ≡ noted.before_note figures.old call.entry setup.now log.now }
{
    if let Call::Drain = call {
        tallies(figures, setup, log);
    }
}

// A copy that was due, at `at`: landed where it is the row at `row`, else dropped; where the next row stands then.
fn due_copy(figures: &mut Figures, due: &[u64], at: usize, out: &[u64], row: usize) -> usize
    requires { (at ≤ noted.copies_end) × (row ≤ noted.rows_end) }
    ensures is { noted.noted figures.new result ≡ noted.due_note (noted.noted figures.old row) due.now out.now at }
    ensures within { result ≤ row + noted.row_width }
{
    if cell(due, at + SEQUENCE) == cell(out, row + SEQUENCE) {
        figures.row(out, row);
        return row + call_flush_pass::ROW;
    }
    figures.drops(due, at);
    row
}

// The first n copies that were due.
fn due_copies(figures: &mut Figures, due: &[u64], n: u64, out: &[u64])
    requires { n ≤ most_slots }
    ensures { figures.new ≡ (noted.due_notes figures.old due.now out.now n).held }
{
    let mut row: usize = 0;
    for i in 0..n {
        row = due_copy(figures, due, i as usize * table_waiting::WIDTH, out, row);
    }
}

// Words of so many rows.
fn rows_size(rows: u64) -> usize
    ensures { result ≡ noted.rows_words rows }
{
    let n = rows.min(MOST_SLOTS) as usize;
    n * call_flush_pass::ROW
}

// A flush, at which so many copies were due; `gone` marks went. What lies behind the rows is older.
fn flushed(figures: &mut Figures, due: &[u64], said: Said, copies: u64, gone: u64, out: &[u64])
    ensures { figures.new ≡ noted.flush_note figures.old due.now said copies gone out.now }
{
    let n = copies.min(MOST_SLOTS);
    due_copies(figures, due, n, sim_lend::part(out, rows_size(said.rows)));
    figures.flushed(said, gone);
}

// An accepted message.
#[tactic(auto, unfolding(crate::specs::Noted::accept_note))]
fn accepted(figures: &mut Figures, message: Accept<'_>, five: Five, net: &[u64])
    ensures { figures.new ≡ noted.accept_note figures.old message.entry five net.now }
{
    let sequence = cell(net, ask_tables::SEQUENCE);
    figures.accepted(message.from, message.scope, message.opens, five, sequence);
}

// A call that no question refused, by what it told.
#[tactic(auto, unfolding(crate::specs::Noted::taken_note))]
fn taken(
    figures: &mut Figures,
    due: &[u64],
    call: Call<'_>,
    told: Outcome,
    gone: u64,
    network: &Network<'_>,
)
    ensures { figures.new ≡ noted.taken_note figures.old due.now call.entry told gone network.now.net.now network.now.out.now }
{
    match (call, told) {
        (Call::Accept(message), Outcome::Accepted(five)) => {
            accepted(figures, message, five, network.net)
        }
        (Call::Flush(_), Outcome::Flushed { said, due: n }) => {
            flushed(figures, due, said, n, gone, network.out)
        }
        (Call::Change(Change::Down { till }), Outcome::Done) => figures.went_down(till, gone),
        (Call::Change(Change::Up { till, shards }), Outcome::Done) => figures.came_up(till, shards),
        _ => {}
    }
}

// Behind a line: what became of it; so many marks stood before it.
#[tactic(auto, unfolding(crate::specs::Noted::after_note))]
pub fn after(
    figures: &mut Figures,
    due: &[u64],
    call: Call<'_>,
    told: Outcome,
    stood: u64,
    network: &Network<'_>,
)
    ensures { figures.new ≡ noted.after_note figures.old due.now call.entry told stood
        network.now.setup.now network.now.net.now network.now.seen.now network.now.out.now }
{
    match told {
        Outcome::Bad => {}
        Outcome::Refused(refusal) => figures.refused(refusal.number()),
        _ => {
            let gone = stood.saturating_sub(marks(network.setup, network.seen));
            taken(figures, due, call, told, gone, network)
        }
    }
}

// Behind an opening: its answer, the line's tills and log slots; its masks stand in the network's room.
#[tactic(auto, unfolding(crate::specs::Noted::opening_note))]
pub fn opened(
    figures: &mut Figures,
    answer: Result<(), Refusal>,
    tills: u64,
    log: u64,
    network: &Network<'_>,
)
    ensures { figures.new ≡ noted.opening_note figures.old answer tills network.now.out.now log network.now.net.now }
{
    match answer {
        Ok(()) => {
            let first = cell(network.net, ask_tables::SEQUENCE);
            figures.opened(tills, network.out, log, first);
        }
        Err(refusal) => figures.refused(refusal.number()),
    }
}

// The first n copies that wait.
fn waiting_copies(figures: &mut Figures, waiting: &[u64], n: u64)
    requires { n ≤ most_slots }
    ensures { figures.new ≡ noted.waits_of figures.old waiting.now n }
{
    for i in 0..n {
        figures.waits(waiting, i as usize * table_waiting::WIDTH);
    }
}

// How many words of the table of waiting copies an opening uses.
fn wait_size(setup: &[u64]) -> usize
    ensures { result ≡ noted.wait_words setup.now }
{
    let slots = cell(setup, ask_tables::WAIT_SLOTS).min(MOST_SLOTS) as usize;
    slots * table_waiting::WIDTH
}

// What is in transit to a till, as the reading says.
fn transit(figures: &mut Figures, setup: &[u64], net: &[u64], waiting: &[u64], t: u64)
    ensures { figures.new ≡ noted.till_transit figures.old setup.now net.now waiting.now t }
{
    let r = Value::from(call_waiting::in_transit(setup, net, waiting, t));
    figures.in_transit(t, r.value);
}

// What is in transit to the first n tills, in a table of the opening's size.
fn transits_of(figures: &mut Figures, setup: &[u64], net: &[u64], waiting: &[u64], n: u64)
    ensures { figures.new ≡ noted.transits_of figures.old setup.now net.now waiting.now n }
{
    for t in 0..n {
        transit(figures, setup, net, waiting, t);
    }
}

// What is in transit to every till.
fn transits(figures: &mut Figures, setup: &[u64], net: &[u64], waiting: &[u64])
    ensures { figures.new ≡ noted.transits_note figures.old setup.now net.now waiting.now }
{
    let n = cell(setup, ask_tables::TILLS).min(ask_tables::MOST_TILLS);
    transits_of(
        figures,
        setup,
        net,
        sim_lend::part(waiting, wait_size(setup)),
        n,
    );
}

// At the end: what waits, what is in transit, the tallies that stand, the marks that stand.
pub fn ended(figures: &mut Figures, network: &Network<'_>)
    ensures { figures.new ≡ noted.end_note figures.old network.now.setup.now network.now.net.now network.now.seen.now network.now.waiting.now network.now.log.now }
{
    let n = cell(network.net, ask_tables::WAITING).min(MOST_SLOTS);
    waiting_copies(figures, network.waiting, n);
    transits(figures, network.setup, network.net, network.waiting);
    tallies(figures, network.setup, network.log);
    figures.stands(marks(network.setup, network.seen));
}
