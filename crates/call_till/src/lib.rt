// The calls on tills and marks: take_down, bring_up, set_handlers, is_down, marks_of.
#![tactic(auto)]

ghost use Rattle.std.specs.Prelude.{◌≡◌};
ghost use Rattle.call_reply.specs.Reply.{done_reply, test_reply};
ghost use Rattle.call_till.specs.Calls.{marks_answer, DoesTakeDown, DoesBringUp, DoesSetHandlers, DoesIsDown, DoesMarksOf};

use ask_refusal::Refusal;
use ask_tables::Till;
use table_rows::Row;

// How many marks a till has, as C gets it.
#[repr(C)]
#[derive(Clone, Copy)]
pub struct Marks {
    pub number: u64,
    pub count: u64,
}

impl From<Result<u64, Refusal>> for Marks {
    ghost from_gives = { λ r m. m ≡ marks_answer r };

    // C gets a number, 0 where no question refused; a refusal answers no marks.
    fn from(outcome: Result<u64, Refusal>) -> Marks {
        match outcome {
            Ok(marks) => Marks {
                number: 0,
                count: marks,
            },
            Err(refusal) => Marks {
                number: refusal.number(),
                count: 0,
            },
        }
    }
}

// The till is down; its marks, handlers and shards go, its waiting copies stay.
pub fn take_down(setup: &[u64], tills: &mut [u64], seen: &mut [u64], t: u64) -> Result<(), Refusal>
    ensures { DoesTakeDown
        setup.now tills.old seen.old
        tills.new seen.new
        t (done_reply result) }
{
    ask_till::down(setup, tills, seen, t)?;
    ask_tables::put_till(tills, t as usize * ask_tables::TILL_WIDTH, 0, 0, 0, 0);
    ask_tables::put(seen, t as usize, 0);
    Ok(())
}

// The till is up, with these shards and no handlers.
pub fn bring_up(setup: &[u64], tills: &mut [u64], t: u64, shards: u64) -> Result<(), Refusal>
    ensures { DoesBringUp
        setup.now tills.old
        tills.new
        t shards (done_reply result) }
{
    ask_till::up(setup, tills, t, shards)?;
    ask_tables::put_till(tills, t as usize * ask_tables::TILL_WIDTH, 1, 0, 0, shards);
    Ok(())
}

// The types that the till's gossip and host handlers take, as masks.
pub fn set_handlers(
    setup: &[u64],
    tills: &mut [u64],
    t: u64,
    gossip: u64,
    host: u64,
) -> Result<(), Refusal>
    ensures { DoesSetHandlers
        setup.now tills.old
        tills.new
        t gossip host (done_reply result) }
{
    ask_till::handlers(setup, tills, t, gossip, host)?;
    let b = t as usize * ask_tables::TILL_WIDTH;
    let till = Till::get(tills, b);
    Till {
        gossip,
        host,
        ..till
    }
    .put(tills, b);
    Ok(())
}

// Is the till down?
pub fn is_down(setup: &[u64], tills: &[u64], t: u64) -> Result<bool, Refusal>
    ensures { DoesIsDown
        setup.now tills.now
        t (test_reply result) }
{
    ask_till::read(setup, tills, t)?;
    let till = Till::get(tills, t as usize * ask_tables::TILL_WIDTH);
    Ok(till.up == 0)
}

// The till's marks, rising, at the front of the output: how many they are.
pub fn marks_of(setup: &[u64], seen: &[u64], t: u64, out: &mut [u64]) -> Result<u64, Refusal>
    ensures { DoesMarksOf
        setup.now seen.now
        t (marks_answer result)
        out.old out.new }
{
    ask_till::marks(setup, seen, out.len() as u64, t)?;
    let count = seen[t as usize];
    let start = ask_tables::ids_start(setup, t as usize);
    ask_tables::copy_front(seen, start, count as usize, out);
    table_marks::list(out, count as usize);
    Ok(count)
}
