// What becomes of a message at one recipient: decided from the tables, which stay as they are.
#![tactic(auto)]

ghost use Rattle.std.specs.Prelude.{◌≡◌, IfSome, List, ℕ, ◌+◌, ◌*◌, ◌^◌, ◌<◌, ◌≤◌, length};
ghost use Rattle.table_marks.specs.Marks.{found, ids_of};
ghost use Rattle.table_rings.specs.Rings.{entries, number_of};
ghost use Rattle.fault_blocks.specs.Blocks.{block_width};
ghost use Rattle.link_draws.specs.Drawing.{Sent};
ghost use Rattle.spec_network.specs.Opening.{most_words, global, link};
ghost use Rattle.spec_network.specs.Live.{rings_of};
ghost use Rattle.spec_network.specs.Accept.{replayed, echoes_of};
ghost use Rattle.fault_rules.specs.Rules.{rules_of};
ghost use Rattle.fault_decide.specs.Decide.{decide_of};
ghost use Rattle.spec_network.specs.Real.{fault_key_of};
ghost use Rattle.spec_network.specs.Tables.{cell, sizes_at, settings_at, till_form, ids_start, blocks_at, rules_at, fault_words_at};
ghost use Rattle.call_offer.specs.Needed.{Fixed, Ranged, Ringed, SeenHeld, State, Rulable, Drawable};
ghost use Rattle.call_offer.specs.Offering.{as_message, context_of, selects_at, stopped_at, echoing_at, keyed, Timed, Replays, Echoed, decision_in, Draws, Offers};

use ask_tables::Till;
use fault_rule::MessageContext;
use rand_streams::Cursor;
use table_rings::Entry;
use table_rows::Row;

// The tables that an accept goes by and leaves alone. Those that it writes stay parameters, in the crates above: the borrow checker covers no call that is lent
// two fields of a struct of `&mut` slices (tried), so that the struct would be made anew, field by field, at each such call: no plainer than the parameters.
// No ghost field holds `Fixed` or `Ranged`: the struct is made before question 1 is asked, and they follow from what the questions find.
#[derive(Clone, Copy)]
pub struct FixedTables<'a> {
    pub setup: &'a [u64],
    pub tills: &'a [u64],
    pub keys: &'a [u32],
    pub prices: &'a [u64],
    pub blocks: &'a [u64],
}

// An entry with its id and its wire length.
#[derive(Clone, Copy)]
pub struct Outgoing {
    pub from: u64,
    pub now: u64,
    pub kind: u64,
    pub class: u64,
    // the shard, or `ask_tables::GLOBAL`
    pub scope: u64,
    pub wire: u64,
    pub id: u64,
    pub tag: u64,
}

impl Outgoing {
    ghost use Rattle.spec_network.specs.Accept.{carried_of};
    ghost use Rattle.call_offer.specs.Offering.{as_message};

    // What a copy of it carries, and what the ring keeps of it.
    pub fn entry(self) -> Entry
        ensures { result ≡ carried_of (as_message self) }
    {
        Entry {
            class: self.class,
            wire: self.wire,
            tag: self.tag,
        }
    }
}

// What is echoed, and the latency of its copy.
#[derive(Clone, Copy)]
pub struct Echo {
    pub entry: Entry,
    pub latency: u64,
}

// The echoes of a copy that is sent, and the link's word count after them.
#[derive(Clone, Copy)]
pub struct Echoes {
    pub duplicate: Option<Echo>,
    pub replay: Option<Echo>,
    pub words: u64,
}

// A rule drops the message: word counts of the link and of the fault stream, and the rule's place.
#[derive(Clone, Copy)]
pub struct Faulted {
    pub words: u64,
    pub fault: u64,
    pub place: usize,
}

// The original's latency, its echoes, and the fault stream's word count.
#[derive(Clone, Copy)]
pub struct Sending {
    pub latency: u64,
    pub echoes: Echoes,
    pub fault: u64,
}

// The place of the rule that drops the message, if one does, and the fault stream's word count.
#[derive(Clone, Copy)]
pub struct Ruling {
    pub place: Option<usize>,
    pub words: u64,
}

// The first of the five that fits, with what it leaves to be written.
#[derive(Clone, Copy)]
pub enum Offer {
    Deduplicated,
    Partition,
    Loss(u64),
    Fault(Faulted),
    Sent(Sending),
}

// Is the till a recipient other than the sender?
pub fn selects(tills: &[u64], scope: u64, from: u64, to: usize) -> bool
    requires { (to * till_form.width + 3 < length tills.now) × (scope ≤ global) }
    ensures { result ≡ selects_at tills.now scope «from» to }
{
    if to as u64 == from {
        return false;
    }
    if scope == ask_tables::GLOBAL {
        return true;
    }
    fault_rule::has(Till::get(tills, to * ask_tables::TILL_WIDTH).shards, scope)
}

// Does the till's mark for the id stand? `SeenHeld` and `to < tills` join `setup` to what is lent beside it, and `to` is another at each turn:
// a type for either would be made anew at each call, and ask the same there.
pub fn marked(setup: &[u64], seen: &[u64], to: usize, id: u64) -> bool
    requires { SeenHeld (sizes_at setup.now) seen.now × (to < (sizes_at setup.now).tills) }
    ensures { result ≡ found id (ids_of seen.now (ids_start (sizes_at setup.now) to) (cell seen.now to)) }
{
    let start = ask_tables::ids_start(setup, to);
    table_marks::has(seen, start, seen[to] as usize, id)
}

// Stopped by an end that is down, or by a block at that time. It asks what `call_stopped` asks of the tables that it hands on.
fn stopped(net: &[u64], tills: &[u64], blocks: &[u64], from: usize, to: usize, at: u64) -> bool
    requires { («from» * till_form.width < length tills.now) × (to * till_form.width < length tills.now)
        × (cell net.now blocks_at * block_width ≤ length blocks.now) }
    ensures { result ≡ stopped_at net.now tills.now blocks.now «from» to at }
{
    call_stopped::stopped(
        tills,
        blocks,
        ask_tables::cell(net, ask_tables::BLOCKS) as usize,
        from,
        to,
        at,
    )
}

// Is either echo rate above 0?
pub fn echoing(setup: &[u64]) -> bool
    ensures { result ≡ echoing_at (settings_at setup.now) }
{
    let duplicate = math_float::of_any(ask_tables::cell(setup, ask_tables::DUPLICATE));
    let replay = math_float::of_any(ask_tables::cell(setup, ask_tables::REPLAY));
    duplicate > 0.0 || replay > 0.0
}

// The replay draw, then the place in the ring, which is drawn only after a hit on a ring that isn't empty: the entry there.
// `count + n` stays a question, here and below: each draw takes another number of words, so that no one fact of the cursor says it.
fn replayed(setup: &[u64], rings: &[u64], m: Outgoing, to: usize, c: &mut Cursor) -> Option<Entry>
    requires { Ringed setup.now rings.now m × (c.old.count + 3 < 2 ^ 63) }
    ensures { (prices : List ℕ) → Replays
        (replayed (keyed (settings_at setup.now) prices c.old.key) (as_message m) to
        (entries (rings_of (sizes_at setup.now)) rings.now (number_of m.kind m.scope)) c.old.count)
        c.old result c.new }
{
    if !link_draws::chance(setup, ask_tables::REPLAY, c) {
        return None;
    }
    let many = setup[ask_tables::TYPES] as usize * table_rings::SCOPES;
    let ring = table_rings::number(m.kind as usize, m.scope as usize);
    let n = table_rings::count(rings, many, ring);
    if n == 0 {
        return None;
    }
    let i = link_draws::index(c, n as u32);
    Some(table_rings::get(rings, many, ring, i as usize))
}

// An echo, whose latency is drawn where there is one.
fn timed(
    entry: Option<Entry>,
    setup: &[u64],
    prices: &[u64],
    from: usize,
    to: usize,
    c: &mut Cursor,
) -> Option<Echo>
    requires { IfSome entry (λ e. Sent setup.now prices.now «from» to e.wire) × (c.old.count + 5 < 2 ^ 63) }
    ensures { Timed (settings_at setup.now) prices.now «from» to entry c.old result c.new }
{
    let Some(entry) = entry else {
        return None;
    };
    let latency = link_draws::delay(setup, prices, from, to, entry.wire, c);
    Some(Echo {
        entry,
        latency: latency.ns,
    })
}

// Duplicate draw, replay draw, ring index, then the echoes' latencies, duplicate first.
fn draw_echoes(
    setup: &[u64],
    prices: &[u64],
    rings: &[u64],
    m: Outgoing,
    to: usize,
    c: &mut Cursor,
) -> Echoes
    requires { Sent setup.now prices.now m.from to m.wire × Ringed setup.now rings.now m × (c.old.count + 32 < 2 ^ 63) }
    ensures { Echoed (as_message m) to
        (echoes_of (keyed (settings_at setup.now) prices.now c.old.key) (as_message m) to
        (entries (rings_of (sizes_at setup.now)) rings.now (number_of m.kind m.scope)) c.old.count)
        result }
{
    if !echoing(setup) {
        return Echoes {
            duplicate: None,
            replay: None,
            words: c.count,
        };
    }
    let doubles = link_draws::chance(setup, ask_tables::DUPLICATE, c);
    let old = replayed(setup, rings, m, to, c);
    let from = m.from as usize;
    let duplicate = timed(doubles.then_some(m.entry()), setup, prices, from, to, c);
    let replay = timed(old, setup, prices, from, to, c);
    Echoes {
        duplicate,
        replay,
        words: c.count,
    }
}

// The rules' decision on the message to the recipient. Where there are none, the fault stream is not looked at.
fn decided(setup: &[u64], net: &[u64], rules: &[u64], m: Outgoing, to: usize) -> Ruling
    requires { Rulable setup.now net.now rules.now }
    ensures { decision_in (cell net.now rules_at) result
        ≡ decide_of (fault_key_of (settings_at setup.now).fault_key) (context_of m to) (rules_of rules.now (cell net.now rules_at)) (cell net.now fault_words_at) }
{
    let n = net[ask_tables::RULES] as usize;
    let words = net[ask_tables::FAULT_WORDS];
    if n == 0 {
        return Ruling { place: None, words };
    }
    let x = MessageContext {
        kind: m.kind,
        from: m.from,
        to: to as u64,
        tier: 0,
        now: m.now,
    };
    let mut f = link_draws::fault_at(setup, words);
    let place = fault_decide::decide(rules, n, &mut f, x);
    Ruling {
        place,
        words: f.count,
    }
}

// The draws of a recipient that no mark and no partition stops: one cursor goes through them all.
// The tables behind `fixed` come one by one, here and in `consider`: the caller holds them as written ones, so that a struct would be made for this call alone.
fn drawn(
    fixed: FixedTables,
    net: &[u64],
    words: &[u64],
    rings: &[u64],
    rules: &[u64],
    m: Outgoing,
    to: usize,
) -> Offer
    requires { Drawable fixed.setup.now net.now words.now fixed.keys.now fixed.prices.now rings.now rules.now m to }
    ensures { Draws fixed.entry.setup.now net.now words.now fixed.entry.keys.now fixed.entry.prices.now rings.now rules.now m to result }
{
    let setup = fixed.setup;
    let from = m.from as usize;
    let tills = setup[ask_tables::TILLS] as usize;
    let given = words[from * ask_tables::LINK_ROW + to];
    let mut c = link_draws::link_at(fixed.keys, tills, from, to, given);
    if link_draws::chance(setup, ask_tables::LOSS, &mut c) {
        return Offer::Loss(c.count);
    }
    let latency = link_draws::delay(setup, fixed.prices, from, to, m.wire, &mut c);
    let v = decided(setup, net, rules, m, to);
    let fault = v.words;
    if let Some(place) = v.place {
        return Offer::Fault(Faulted {
            words: c.count,
            fault,
            place,
        });
    }
    let echoes = draw_echoes(setup, fixed.prices, rings, m, to, &mut c);
    Offer::Sent(Sending {
        latency: latency.ns,
        echoes,
        fault,
    })
}

// A recipient goes under the first that fits: its mark stands, it is stopped, the loss draw hits, a rule drops it; else sent.
pub fn consider(
    fixed: FixedTables,
    net: &[u64],
    words: &[u64],
    seen: &[u64],
    rings: &[u64],
    rules: &[u64],
    m: Outgoing,
    to: usize,
) -> Offer
    requires { Fixed fixed.setup.now fixed.tills.now fixed.keys.now fixed.prices.now fixed.blocks.now
        × State fixed.setup.now net.now words.now seen.now rings.now rules.now
        × Ranged fixed.setup.now m
        × (to < (sizes_at fixed.setup.now).tills)
        × (cell words.now (link m.from to) < most_words) }
    ensures { Offers
        fixed.entry.setup.now net.now fixed.entry.tills.now words.now fixed.entry.keys.now fixed.entry.prices.now
        seen.now rings.now rules.now fixed.entry.blocks.now m to result }
{
    if marked(fixed.setup, seen, to, m.id) {
        return Offer::Deduplicated;
    }
    if stopped(net, fixed.tills, fixed.blocks, m.from as usize, to, m.now) {
        return Offer::Partition;
    }
    drawn(fixed, net, words, rings, rules, m, to)
}
