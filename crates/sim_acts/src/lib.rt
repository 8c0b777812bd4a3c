// A call of a script on the tables of the network that is open: front parts of its sizes are lent, the call is made, and notes are taken of it.
#![tactic(auto)]

ghost use Rattle.std.specs.Prelude.{◌≡◌};
ghost use Rattle.sim_notes.specs.Noted.{marks_in, before_note};
ghost use Rattle.sim_acts.specs.Acted.{IsNoted};

use ask_opening::{NetworkSizes, RegionPlan, TableLengths};
use ask_refusal::Refusal;
use ask_tables::cell;
use sim_figures::Figures;
use sim_lend::Network;
use sim_outcome::Outcome;
use sim_printer::Printer;
use sim_script::{Call, Reading};
use sim_session::lines::Session;
use sim_session::{lines, opens};

// The sizes of the network that is open, as its opening wrote them.
fn open_sizes(setup: &[u64]) -> Result<TableLengths, Refusal> {
    let sizes = NetworkSizes {
        tills: cell(setup, ask_tables::TILLS),
        types: cell(setup, ask_tables::TYPES),
        classes: cell(setup, ask_tables::CLASSES),
        shards: cell(setup, ask_tables::SHARDS),
        seen: cell(setup, ask_tables::SEEN_SLOTS),
        waiting: cell(setup, ask_tables::WAIT_SLOTS),
        log: cell(setup, ask_tables::LOG_SLOTS),
    };
    let plan = RegionPlan {
        planned: cell(setup, ask_tables::PLANNED),
        regions: cell(setup, ask_tables::REGIONS),
        seed: cell(setup, ask_tables::PLAN_SEED),
    };
    ask_opening::table_sizes(sizes, plan)
}

// A call on tables of the open network's sizes. The fields are lent anew here: the borrow checker covers no method that lends them all.
// Over 40 lines: fourteen fields, and an arm for each call.
fn act(network: &mut Network<'_>, call: Call<'_>, due: &mut [u64], page: &mut Printer) -> Outcome {
    let n = match open_sizes(network.setup) {
        Ok(n) => n,
        Err(refusal) => return Outcome::Refused(refusal),
    };
    let whole = Network {
        setup: network.setup,
        net: network.net,
        names: network.names,
        tills: network.tills,
        words: network.words,
        keys: network.keys,
        prices: network.prices,
        seen: network.seen,
        waiting: network.waiting,
        rings: network.rings,
        rules: network.rules,
        blocks: network.blocks,
        log: network.log,
        out: network.out,
    };
    let lent = opens::fitted(whole, n);
    match call {
        Call::Accept(entry) => sim_accept::accept(lent, entry, page),
        Call::Flush(flush) => sim_flush::flush(lent, flush, due, page),
        Call::Drain => sim_flush::drain(lent, page),
        Call::Change(change) => sim_calls::change(lent, change, page),
        Call::Passage(passage) => sim_calls::passage(lent, passage, page),
        Call::Install { card } => sim_calls::install(lent, card, page),
        Call::Hook(hook) => sim_calls::hook(lent, hook, page),
        Call::Reading(Reading::Single(single)) => sim_calls::single(lent, single, page),
        Call::Reading(Reading::Table(table)) => sim_calls::table(lent, table, page),
        Call::Reading(Reading::State) => sim_calls::state(lent, page),
        Call::Should(message) => sim_leaf_calls::should(lent, message, page),
        Call::Geography(geography) => sim_leaf_calls::geography(lent, geography, page),
        Call::Latency(latency) => sim_leaf_calls::latency(lent, latency, page),
        Call::Digest { input } => sim_leaf_calls::digest(input, page),
        Call::Seconds(seconds) => sim_leaf_calls::seconds(seconds, page),
        Call::Draws(draws) => sim_leaf_calls::draws(draws, page),
    }
}

// What is noted before a call; the marks that stand then.
fn noted_before(network: &Network<'_>, call: Call<'_>, figures: &mut Figures) -> u64
    ensures figures { figures.new ≡ before_note figures.old call.entry network.now.setup.now network.now.log.now }
    ensures stood { result ≡ marks_in network.now.setup.now network.now.seen.now }
{
    sim_notes::before(figures, call, network.setup, network.log);
    sim_notes::marks(network.setup, network.seen)
}

// A call on the tables of the largest sizes, and the notes for the figures of the run.
pub fn call(
    network: &mut Network<'_>,
    call: Call<'_>,
    r: Session,
    figures: &mut Figures,
    due: &mut [u64],
    page: &mut Printer,
)
    ensures { IsNoted figures.old figures.new call.entry
        network.old.setup.now network.old.log.now network.old.seen.now due.new
        network.new.setup.now network.new.net.now network.new.seen.now network.new.out.now }
{
    let stood = noted_before(network, call, figures);
    let told = act(network, call, due, page);
    sim_notes::after(figures, due, call, told, stood, network);
    lines::called(page, r, told);
}
