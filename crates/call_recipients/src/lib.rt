// The recipients of a message in host order: each is offered it on what the one before left.
#![tactic(auto)]

ghost use Rattle.std.specs.Prelude.{◌+◌, ◌<◌, ◌≤◌};
ghost use Rattle.spec_network.specs.Accept.{total};
ghost use Rattle.spec_network.specs.Tables.{sizes_at};
ghost use Rattle.call_offer.specs.Needed.{Fixed, Ranged};
ghost use Rattle.call_schedule.specs.Writing.{counts_of};
ghost use Rattle.call_recipients.specs.Turning.{AdmittedFrom, Turned, Served};

pub use call_offer::FixedTables;
use call_offer::Outgoing;
use call_schedule::Counts;

// One till: where it is selected, the message is offered to it, and it is counted under what became of it.
// The written tables stay parameters, here and in `serve`: `call_offer::FixedTables` says why.
fn turn(
    fixed: FixedTables,
    net: &mut [u64],
    words: &mut [u64],
    seen: &mut [u64],
    waiting: &mut [u64],
    rings: &mut [u64],
    rules: &mut [u64],
    m: Outgoing,
    to: usize,
    c: Counts,
) -> Counts
    requires { Fixed fixed.setup.now fixed.tills.now fixed.keys.now fixed.prices.now fixed.blocks.now
        × Ranged fixed.setup.now m
        × AdmittedFrom fixed.setup.now net.old fixed.tills.now words.old seen.old waiting.old rings.old rules.old m to
        × (to < (sizes_at fixed.setup.now).tills)
        × (total (counts_of c) ≤ to) }
    ensures { Turned
        fixed.entry.setup.now fixed.entry.tills.now fixed.entry.keys.now fixed.entry.prices.now fixed.entry.blocks.now
        net.old words.old seen.old waiting.old rings.old rules.old
        net.new words.new seen.new waiting.new rings.new rules.new
        m to c result }
{
    let setup = fixed.setup;
    if !call_offer::selects(fixed.tills, m.scope, m.from, to) {
        return c;
    }
    let r = call_offer::consider(fixed, net, words, seen, rings, rules, m, to);
    call_schedule::apply(setup, net, words, seen, waiting, rings, rules, m, to, r);
    call_schedule::count(c, r)
}

// All tills, in host order.
pub fn serve(
    fixed: FixedTables,
    net: &mut [u64],
    words: &mut [u64],
    seen: &mut [u64],
    waiting: &mut [u64],
    rings: &mut [u64],
    rules: &mut [u64],
    m: Outgoing,
) -> Counts
    requires { Fixed fixed.setup.now fixed.tills.now fixed.keys.now fixed.prices.now fixed.blocks.now
        × Ranged fixed.setup.now m
        × (m.class < (sizes_at fixed.setup.now).classes)
        × AdmittedFrom fixed.setup.now net.old fixed.tills.now words.old seen.old waiting.old rings.old rules.old m 0 }
    ensures { Served
        fixed.entry.setup.now fixed.entry.tills.now fixed.entry.keys.now fixed.entry.prices.now fixed.entry.blocks.now
        net.old words.old seen.old waiting.old rings.old rules.old
        net.new words.new seen.new waiting.new rings.new rules.new
        m result }
{
    let n = fixed.setup[ask_tables::TILLS] as usize;
    let mut c = Counts::default();
    for to in 0..n {
        c = turn(fixed, net, words, seen, waiting, rings, rules, m, to, c);
    }
    c
}
