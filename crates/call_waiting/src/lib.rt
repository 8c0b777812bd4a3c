// Readings of the waiting copies on the network's tables: how many originals go to a till, when the next is due, and all of them.
#![tactic(auto)]

ghost use Rattle.std.specs.Prelude.{◌≡◌, ◌*◌, ◌≤◌, length};
ghost use Rattle.ask_refusal.specs.Refusals.{asked};
ghost use Rattle.table_waiting.specs.Waiting.{width};
ghost use Rattle.spec_network.specs.Live.{moves_to};
ghost use Rattle.call_reply.specs.Reply.{value_reply, found_reply};
ghost use Rattle.call_waiting.specs.Call.{DoesTransit, DoesNextTime, DoesCopies, waiting_lent, lent_number, till_number, out_number, transit_of, copied_reply};

use ask_refusal::Refusal;
use table_rows::Row;
use table_waiting::Copy;

// How many copies were copied out, as C gets it: first the number of the question that refused the call, or 0.
#[repr(C)]
#[derive(Clone, Copy)]
pub struct Copied {
    pub number: u64,
    pub copies: u64,
}

impl From<Result<u64, Refusal>> for Copied {
    ghost from_gives = { λ r c. c ≡ copied_reply r };

    // C gets a number, 0 where no question refused; a refusal answers no copies.
    fn from(outcome: Result<u64, Refusal>) -> Copied {
        match outcome {
            Ok(copies) => Copied { number: 0, copies },
            Err(refusal) => Copied {
                number: refusal.number(),
                copies: 0,
            },
        }
    }
}

// Question 1.
#[tactic(auto, unfolding(crate::specs::Call::waiting_lent))]
fn lent(setup: &[u64], net: &[u64], waiting: &[u64]) -> bool
    ensures { result ≡ waiting_lent setup.now net.now waiting.now }
{
    ask_tables::setup_held(setup)
        && ask_tables::net_held(setup, net)
        && ask_rows::waiting_held(setup, net, waiting)
}

// Questions 1 and 4. Like those of `ask_till` but for the tables that question 1 is asked of: one function would take that question as a closure.
fn transit_refusal(setup: &[u64], net: &[u64], waiting: &[u64], t: u64) -> Result<(), Refusal>
    ensures { asked result ≡ lent_number setup.now net.now waiting.now (till_number setup.now t) }
{
    if !lent(setup, net, waiting) {
        return Err(Refusal::Tables);
    }
    if ask_tables::cell(setup, ask_tables::TILLS) <= t {
        return Err(Refusal::Till);
    }
    Ok(())
}

// Question 1, also of an output that is shorter than the waiting slots.
fn copies_refusal(setup: &[u64], net: &[u64], waiting: &[u64], rows: usize) -> Result<(), Refusal>
    ensures { asked result ≡ lent_number setup.now net.now waiting.now (out_number setup.now rows) }
{
    if !lent(setup, net, waiting) {
        return Err(Refusal::Tables);
    }
    if (rows as u64) < ask_tables::cell(setup, ask_tables::WAIT_SLOTS) {
        return Err(Refusal::Tables);
    }
    Ok(())
}

// Is a copy an original to the till?
fn moves(c: Copy, t: u64) -> bool
    ensures { result ≡ moves_to t c }
{
    c.original != 0 && c.delivery.to == t
}

// How many of the first n copies are originals to the till? n counts rows, as in `table_waiting`; a slice of words would be no plainer.
fn count_to(waiting: &[u64], n: usize, t: u64) -> u64
    requires { n * width ≤ length waiting.now }
    ensures { result ≡ transit_of t waiting.now n }
{
    let mut k: u64 = 0;
    for i in 0..n {
        let c = Copy::get(waiting, i * table_waiting::WIDTH);
        if moves(c, t) {
            k += 1;
        }
    }
    k
}

// How many originals wait for a till.
pub fn in_transit(setup: &[u64], net: &[u64], waiting: &[u64], t: u64) -> Result<u64, Refusal>
    ensures { DoesTransit
        setup.now net.now waiting.now
        t (value_reply result) }
{
    transit_refusal(setup, net, waiting, t)?;
    Ok(count_to(waiting, net[ask_tables::WAITING] as usize, t))
}

// The time of the first waiting copy, if one waits.
pub fn next_time(setup: &[u64], net: &[u64], waiting: &[u64]) -> Result<Option<u64>, Refusal>
    ensures { DoesNextTime
        setup.now net.now waiting.now
        (found_reply result) }
{
    if !lent(setup, net, waiting) {
        return Err(Refusal::Tables);
    }
    if net[ask_tables::WAITING] == 0 {
        return Ok(None);
    }
    let d = table_delivery::Delivery::get(waiting, 0);
    Ok(Some(d.time))
}

// The waiting copies, by time, then sequence, to the front of out; how many there are.
pub fn waiting_copies(
    setup: &[u64],
    net: &[u64],
    waiting: &[u64],
    out: &mut [u64],
) -> Result<u64, Refusal>
    ensures { DoesCopies
        setup.now net.now waiting.now
        (copied_reply result)
        out.old out.new }
{
    copies_refusal(setup, net, waiting, out.len() / table_waiting::WIDTH)?;
    let copies = net[ask_tables::WAITING];
    ask_tables::copy_front(waiting, 0, copies as usize * table_waiting::WIDTH, out);
    Ok(copies)
}
