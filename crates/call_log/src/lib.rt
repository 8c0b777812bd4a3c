// The log's calls on the network's tables: drain, and the tally of a class.
#![tactic(auto)]

ghost use Rattle.std.specs.Prelude.{◌≡◌, ◌≤◌, length};
ghost use Rattle.ask_refusal.specs.Refusals.{asked};
ghost use Rattle.table_log.specs.Log.{records_at, tallies_of};
ghost use Rattle.call_log.specs.Call.{DoesDrain, DoesTally, log_lent, drain_number, tally_number, drained_reply, tallied_reply, tally_cells};

use ask_refusal::Refusal;
use table_log::Tally;

// Deliveries and bytes of each of the eight classes.
pub const TALLY_CELLS: usize = 16;

// Where they stand in the log: before the records.
const TALLIES: usize = table_log::RECORDS - TALLY_CELLS;

// How many records were copied out, how many the capacity had forced out, and the tallies: deliveries and bytes of class 0, of class 1, and so on.
#[derive(Clone, Copy)]
pub struct Emptied {
    pub records: u64,
    pub forced: u64,
    pub tallies: [u64; TALLY_CELLS],
}

// A drain as C gets it: first the number of the question that refused the call, or 0.
#[repr(C)]
#[derive(Clone, Copy, Default)]
pub struct Drained {
    pub number: u64,
    pub records: u64,
    pub forced: u64,
    pub tallies: [u64; TALLY_CELLS],
}

// Deliveries and bytes of a class, as C gets them.
#[repr(C)]
#[derive(Clone, Copy, Default)]
pub struct Tallied {
    pub number: u64,
    pub deliveries: u64,
    pub bytes: u64,
}

impl From<Result<Emptied, Refusal>> for Drained {
    ghost from_gives = { λ r d. d ≡ drained_reply r };

    // C gets a number, 0 where no question refused; a refusal answers zeros.
    fn from(outcome: Result<Emptied, Refusal>) -> Drained {
        match outcome {
            Ok(emptied) => {
                let tallies = emptied.tallies;
                Drained {
                    number: 0,
                    records: emptied.records,
                    forced: emptied.forced,
                    tallies,
                }
            }
            Err(refusal) => Drained {
                number: refusal.number(),
                ..Drained::default()
            },
        }
    }
}

impl From<Result<Tally, Refusal>> for Tallied {
    ghost from_gives = { λ r t. t ≡ tallied_reply r };

    // C gets a number, 0 where no question refused; a refusal answers zeros.
    fn from(outcome: Result<Tally, Refusal>) -> Tallied {
        match outcome {
            Ok(tally) => Tallied {
                number: 0,
                deliveries: tally.deliveries,
                bytes: tally.bytes,
            },
            Err(refusal) => Tallied {
                number: refusal.number(),
                ..Tallied::default()
            },
        }
    }
}

// Question 1.
#[tactic(auto, unfolding(crate::specs::Call::log_lent))]
fn lent(setup: &[u64], log: &[u64]) -> bool
    ensures { result ≡ log_lent setup.now log.now }
{
    ask_tables::setup_held(setup) && ask_rows::log_held(setup, log)
}

// Question 1, also of an output that is shorter than the log's capacity.
fn drain_refusal(setup: &[u64], log: &[u64], rows: usize) -> Result<(), Refusal>
    ensures { asked result ≡ drain_number setup.now log.now rows }
{
    if !lent(setup, log) {
        return Err(Refusal::Tables);
    }
    if (rows as u64) < ask_tables::cell(setup, ask_tables::LOG_SLOTS) {
        return Err(Refusal::Tables);
    }
    Ok(())
}

// Questions 1 and 5. Like those of `ask_till` but for the tables that question 1 is asked of: one function would take that question as a closure.
fn tally_refusal(setup: &[u64], log: &[u64], class: u64) -> Result<(), Refusal>
    ensures { asked result ≡ tally_number setup.now log.now «class» }
{
    if !lent(setup, log) {
        return Err(Refusal::Tables);
    }
    if ask_tables::cell(setup, ask_tables::CLASSES) <= class {
        return Err(Refusal::Range);
    }
    Ok(())
}

// Deliveries and bytes of each class, as the log holds them. Of the log it asks what `table_log`'s own readings do.
fn tallies(log: &[u64]) -> [u64; TALLY_CELLS]
    requires { records_at ≤ length log.now }
    ensures { result ≡ tally_cells (tallies_of log.now) }
{
    let mut v = [0u64; TALLY_CELLS];
    ask_tables::copy_front(log, TALLIES, TALLY_CELLS, &mut v);
    v
}

// The records, oldest first, to the front of out, and the tallies; then the log is empty.
pub fn drain(setup: &[u64], log: &mut [u64], out: &mut [u64]) -> Result<Emptied, Refusal>
    ensures { DoesDrain
        setup.now log.old
        log.new
        (drained_reply result)
        out.old out.new }
{
    drain_refusal(setup, log, out.len() / table_delivery::WIDTH)?;
    let forced = table_log::forced(log);
    let tallies = tallies(log);
    let records = table_log::drain(log, setup[ask_tables::LOG_SLOTS] as usize, out);
    Ok(Emptied {
        records,
        forced,
        tallies,
    })
}

// Deliveries and bytes of a class since the log was last drained.
pub fn tally_of(setup: &[u64], log: &[u64], class: u64) -> Result<Tally, Refusal>
    ensures { DoesTally
        setup.now log.now
        «class» (tallied_reply result) }
{
    tally_refusal(setup, log, class)?;
    Ok(table_log::class_tally(log, class))
}
