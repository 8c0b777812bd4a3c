// What an offer writes: word counts, the fired count, the mark, the copies and the ring. The decision is `call_offer`'s.
#![tactic(auto)]

ghost use Rattle.std.specs.Prelude.{◌≡◌, IfSome, Some, ◌<◌, ◌≤◌};
ghost use Rattle.link_latency.specs.Latency.{longest};
ghost use Rattle.spec_network.specs.Opening.{latest_now, link};
ghost use Rattle.spec_network.specs.Accept.{copy_with, add, total};
ghost use Rattle.spec_network.specs.Tables.{cell, sizes_at, settings_at};
ghost use Rattle.call_offer.specs.Needed.{Ringed, SeenHeld};
ghost use Rattle.call_offer.specs.Offering.{as_message};
ghost use Rattle.call_schedule.specs.Writing.{marked_seen, pushed_net, pushed_waiting, remembered, flag_in, id_in, echo_in, Room, Sendable, Applicable, Sends, Applies, fate_in, counts_of};

use call_offer::{Echo, Offer, Outgoing, Sending};
use table_delivery::Delivery;
use table_rings::Entry;
use table_waiting::Copy;

// How many recipients went under each of the five.
#[derive(Clone, Copy, Default)]
pub struct Counts {
    pub sent: u64,
    pub deduplicated: u64,
    pub partition: u64,
    pub loss: u64,
    pub fault: u64,
}

// The id among the till's marks, and their number. What it asks stays asked, as in `call_offer::marked`.
fn mark(setup: &[u64], seen: &mut [u64], to: usize, id: u64)
    requires { SeenHeld (sizes_at setup.now) seen.old × (to < (sizes_at setup.now).tills) × (cell seen.old to < (sizes_at setup.now).seen_slots) }
    ensures { seen.new ≡ marked_seen (sizes_at setup.now) seen.old to id }
{
    let n = seen[to];
    let start = ask_tables::ids_start(setup, to);
    table_marks::insert(seen, start, n as usize, id);
    seen[to] = n + 1;
}

// A copy, where there is one, takes the next sequence and stands among those that wait.
fn push(net: &mut [u64], waiting: &mut [u64], c: Option<Copy>)
    requires { Room net.old waiting.old 1 }
    ensures counts { net.new ≡ pushed_net c net.old waiting.old }
    ensures rows { waiting.new ≡ pushed_waiting c net.old waiting.old }
{
    let Some(c) = c else {
        return;
    };
    let k = net[ask_tables::SEQUENCE] + 1;
    let n = net[ask_tables::WAITING];
    table_waiting::insert(waiting, n as usize, Copy { sequence: k, ..c });
    net[ask_tables::SEQUENCE] = k;
    net[ask_tables::WAITING] = n + 1;
}

// A copy of what is carried, an original where it has an id; it takes its sequence when it is pushed.
fn copy_with(m: Outgoing, to: usize, e: Entry, latency: u64, id: Option<u64>) -> Copy
    requires { (m.now ≤ latest_now) × (latency ≤ longest) }
    ensures { result ≡ copy_with (as_message m) to 0 e latency (flag_in id) (id_in id) }
{
    let delivery = Delivery {
        from: m.from,
        to: to as u64,
        kind: m.kind,
        class: e.class,
        sent: m.now,
        time: m.now + latency,
        scope: m.scope,
        wire: e.wire,
    };
    Copy {
        delivery,
        sequence: 0,
        original: u64::from(id.is_some()),
        id: id.unwrap_or(0),
        tag: e.tag,
    }
}

// The copy of an echo, which carries no id.
fn echo(m: Outgoing, to: usize, e: Option<Echo>) -> Option<Copy>
    requires { (m.now ≤ latest_now) × IfSome e (λ q. q.latency ≤ longest) }
    ensures { result ≡ echo_in (as_message m) to e }
{
    let Some(e) = e else {
        return None;
    };
    Some(copy_with(m, to, e.entry, e.latency, None))
}

// The ring takes the message, where an echo rate is above 0.
fn remember(setup: &[u64], rings: &mut [u64], m: Outgoing)
    requires { Ringed setup.now rings.old m }
    ensures { rings.new ≡ remembered (settings_at setup.now) rings.old (as_message m) }
{
    if !call_offer::echoing(setup) {
        return;
    }
    let many = setup[ask_tables::TYPES] as usize * table_rings::SCOPES;
    let ring = table_rings::number(m.kind as usize, m.scope as usize);
    table_rings::push(rings, many, ring, m.entry());
}

// The written tables stay parameters, here and in `apply`: `call_offer::FixedTables` says why.
// Sent: word counts, the mark, the original, its echoes, the ring.
fn send(
    setup: &[u64],
    net: &mut [u64],
    words: &mut [u64],
    seen: &mut [u64],
    waiting: &mut [u64],
    rings: &mut [u64],
    m: Outgoing,
    to: usize,
    x: Sending,
)
    requires { Sendable setup.now net.old words.old seen.old waiting.old rings.old m to x }
    ensures { Sends m to x setup.now net.old words.old seen.old waiting.old rings.old net.new words.new seen.new waiting.new rings.new }
{
    words[m.from as usize * ask_tables::LINK_ROW + to] = x.echoes.words;
    net[ask_tables::FAULT_WORDS] = x.fault;
    mark(setup, seen, to, m.id);
    let first = copy_with(m, to, m.entry(), x.latency, Some(m.id));
    push(net, waiting, Some(first));
    push(net, waiting, echo(m, to, x.echoes.duplicate));
    push(net, waiting, echo(m, to, x.echoes.replay));
    remember(setup, rings, m);
}

// What an offer writes.
pub fn apply(
    setup: &[u64],
    net: &mut [u64],
    words: &mut [u64],
    seen: &mut [u64],
    waiting: &mut [u64],
    rings: &mut [u64],
    rules: &mut [u64],
    m: Outgoing,
    to: usize,
    r: Offer,
)
    requires { Applicable setup.now net.old words.old seen.old waiting.old rings.old m to r }
    ensures { Applies m to r setup.now net.old words.old seen.old waiting.old rings.old rules.old net.new words.new seen.new waiting.new rings.new rules.new }
{
    let link = m.from as usize * ask_tables::LINK_ROW + to;
    match r {
        Offer::Deduplicated => {}
        Offer::Partition => {}
        Offer::Loss(n) => {
            words[link] = n;
        }
        Offer::Fault(f) => {
            words[link] = f.words;
            net[ask_tables::FAULT_WORDS] = f.fault;
            fault_rules::fire(rules, f.place);
        }
        Offer::Sent(x) => {
            send(setup, net, words, seen, waiting, rings, m, to, x);
        }
    }
}

// One recipient more, under its class.
pub fn count(c: Counts, r: Offer) -> Counts
    requires { total (counts_of c) ≤ 64 }
    ensures { counts_of result ≡ add (fate_in r) (counts_of c) }
{
    match r {
        Offer::Deduplicated => Counts {
            deduplicated: c.deduplicated + 1,
            ..c
        },
        Offer::Partition => Counts {
            partition: c.partition + 1,
            ..c
        },
        Offer::Loss(_) => Counts {
            loss: c.loss + 1,
            ..c
        },
        Offer::Fault(_) => Counts {
            fault: c.fault + 1,
            ..c
        },
        Offer::Sent(_) => Counts {
            sent: c.sent + 1,
            ..c
        },
    }
}
