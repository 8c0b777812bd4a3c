// Regions, links, times on the wire, link keys and latencies.
use ask_refusal::Refusal;
use ask_tables::{LATEST, LONGEST_WIRE, MOST_WORDS, cell, put};
use link_geography::{Cost, Link};
use math_time::Time;
use rand_streams::Cursor;
use sim_answers::hexes;
use sim_lend::Network;
use sim_outcome::{Outcome, refused, valued};
use sim_printer::Printer;
use sim_script::{Geography, Latency, Message};

// Two tills, where both have 32 bits.
fn pair(from: u64, to: u64) -> Option<(u32, u32)> {
    let from = u32::try_from(from).ok()?;
    let to = u32::try_from(to).ok()?;
    Some((from, to))
}

// The region of a till, by the plan alone.
fn region(setup: &[u64], t: u32) -> u64 {
    link_geography::region_of(
        cell(setup, ask_tables::PLAN_SEED),
        cell(setup, ask_tables::REGIONS),
        t,
    )
}

// No delay, and no bytes a second. Zeros by hand, here and in `no_cost`: Time, Link and Cost of the crates below derive no Default, and nothing else would use one.
fn no_link() -> Link {
    Link {
        base: Time::ZERO,
        rate: 0,
    }
}

// What the plan has for two regions.
fn link_in(prices: &[u64], regions: u64, a: u64, b: u64) -> Link {
    let most = ask_tables::MOST_REGIONS;
    if most < regions || most <= a || most <= b {
        return no_link();
    }
    link_prices::link_between(prices, regions, a, b)
}

// What the plan has for two tills.
fn link(setup: &[u64], prices: &[u64], from: u32, to: u32) -> Link {
    let a = region(setup, from);
    let b = region(setup, to);
    link_in(prices, cell(setup, ask_tables::REGIONS), a, b)
}

// Nanoseconds on the wire; question 6 refuses a length beyond the limit.
fn wire_time(bytes: u64, rate: u64) -> Result<u64, Refusal> {
    if LONGEST_WIRE < bytes {
        return Err(Refusal::Length);
    }
    let t = link_geography::transmission(bytes, rate);
    Ok(t.ns)
}

// Has the opening a plan of regions?
fn is_planned(setup: &[u64]) -> bool {
    cell(setup, ask_tables::PLANNED) != 0
}

// A till's region, or that none is planned.
fn region_call(t: u32, setup: &[u64], page: &mut Printer) -> Outcome {
    if !is_planned(setup) {
        page.text(b"region -\n");
        return Outcome::Done;
    }
    page.ended(b"region ", region(setup, t));
    Outcome::Done
}

// What the plan has for two tills, or that none is planned.
fn link_call(from: u32, to: u32, setup: &[u64], prices: &[u64], page: &mut Printer) -> Outcome {
    if !is_planned(setup) {
        page.text(b"link -\n");
        return Outcome::Done;
    }
    let l = link(setup, prices, from, to);
    let base = l.base;
    page.labelled(b"link base=", base.ns);
    page.ended(b" rate=", l.rate);
    Outcome::Done
}

// Nanoseconds on the wire between two tills; none pass without a plan.
fn transmission(
    from: u32,
    to: u32,
    bytes: u64,
    setup: &[u64],
    prices: &[u64],
) -> Result<u64, Refusal> {
    if !is_planned(setup) {
        wire_time(bytes, 0)?;
        return Ok(0);
    }
    let l = link(setup, prices, from, to);
    wire_time(bytes, l.rate)
}

// The key of the stream of a link.
fn key_call(from: u32, to: u32, setup: &[u64], page: &mut Printer) -> Outcome {
    let seed = cell(setup, ask_tables::SEED);
    let key = rand_streams::link_key(seed, from, to);
    page.text(b"linkkey ");
    hexes(page, key);
    page.text(b"\n");
    Outcome::Done
}

// A call on tills of 32 bits; None where a till has more.
fn with_tills(
    setup: &[u64],
    prices: &[u64],
    call: Geography,
    page: &mut Printer,
) -> Option<Outcome> {
    let outcome = match call {
        Geography::Region { till } => {
            let (till, _) = pair(till, till)?;
            region_call(till, setup, page)
        }
        Geography::Link { from, to } => {
            let (from, to) = pair(from, to)?;
            link_call(from, to, setup, prices, page)
        }
        Geography::Transmission { from, to, bytes } => {
            let (from, to) = pair(from, to)?;
            let answer = transmission(from, to, bytes, setup, prices);
            valued(page, b"transmission", b"transmission ", answer)
        }
        Geography::Wire { rate, bytes } => {
            valued(page, b"wire", b"wire ", wire_time(bytes, rate))
        }
        Geography::LinkKey { from, to } => {
            let (from, to) = pair(from, to)?;
            key_call(from, to, setup, page)
        }
    };
    Some(outcome)
}

// Regions, links and keys; tills of any 32 bits.
pub fn geography(network: Network<'_>, call: Geography, page: &mut Printer) -> Outcome {
    let Network { setup, prices, .. } = network;
    with_tills(setup, prices, call, page).unwrap_or(Outcome::Bad)
}

// No time at all.
fn no_cost() -> Cost {
    Cost {
        base: Time::ZERO,
        transmission: Time::ZERO,
    }
}

// What a delivery of so many bytes costs between two tills.
fn cost(setup: &[u64], prices: &[u64], from: u32, to: u32, bytes: u64) -> Cost {
    let regions = cell(setup, ask_tables::REGIONS);
    let a = region(setup, from);
    let b = region(setup, to);
    let most = ask_tables::MOST_REGIONS;
    if most < regions || most <= a || most <= b || LONGEST_WIRE < bytes {
        return no_cost();
    }
    let latency = Time::from_nanos(cell(setup, ask_tables::LATENCY));
    let plan = is_planned(setup).then_some(regions);
    link_prices::cost_between(prices, plan, a, b, latency, bytes)
}

// The longest time on the wire.
const LONGEST: u64 = 60 * Time::SECOND.ns;

// The next latency, in nanoseconds; 0, and no word, from the end of the stream on and where the settings are out of range.
fn sampled(setup: &[u64], cursor: &mut Cursor, c: Cost) -> u64 {
    let base = c.base;
    let wire = c.transmission;
    let fraction = math_float::of_any(cell(setup, ask_tables::JITTER));
    let spike = math_float::of_any(cell(setup, ask_tables::SPIKE));
    if LATEST <= cursor.count {
        return 0;
    }
    if LONGEST < wire.ns {
        return 0;
    }
    if !link_latency::latency_admitted(base) {
        return 0;
    }
    if !link_latency::fraction_admitted(fraction) {
        return 0;
    }
    let t = link_latency::sample_latency(cursor, base, fraction, spike, wire);
    t.ns
}

// Samples on a stream record of its own, each behind the one before.
pub fn latency(network: Network<'_>, call: Latency, page: &mut Printer) -> Outcome {
    let Network { setup, prices, .. } = network;
    let Some((from, to)) = pair(call.from, call.to) else {
        return Outcome::Bad;
    };
    if LONGEST_WIRE < call.bytes {
        return refused(page, b"latency", Refusal::Length);
    }
    if MOST_WORDS <= call.count {
        return refused(page, b"latency", Refusal::Words);
    }
    page.text(b"latency");
    let cost = match call.times {
        0 => no_cost(),
        _ => cost(setup, prices, from, to, call.bytes),
    };
    let mut cursor = Cursor::at(call.key, call.count);
    for _ in 0..call.times {
        let ns = sampled(setup, &mut cursor, cost);
        page.labelled(b" ", ns);
    }
    page.ended(b" words=", cursor.count);
    Outcome::Done
}

// Stops a block at that time, or a down till?
fn is_stopped(setup: &[u64], net: &[u64], tills: &[u64], blocks: &[u64], m: Message) -> bool {
    let blocked = call_block::is_blocked(setup, net, blocks, m.from, m.to, m.at);
    let is_down = |t: u64| matches!(call_till::is_down(setup, tills, t), Ok(true));
    matches!(blocked, Ok(true)) || is_down(m.from) || is_down(m.to)
}

// The questions of a message from till to till: 4, 6, 7 and 8. Its tills, where none refuses it.
fn questions(m: Message, tills: u64, count: u64) -> Result<(u32, u32), Refusal> {
    if tills <= m.from || tills <= m.to {
        return Err(Refusal::Till);
    }
    if LONGEST_WIRE < m.bytes {
        return Err(Refusal::Length);
    }
    if LATEST < m.at {
        return Err(Refusal::Time);
    }
    if MOST_WORDS <= count {
        return Err(Refusal::Words);
    }
    pair(m.from, m.to).ok_or(Refusal::Till)
}

// Does the loss draw hit? From the end of the stream on everything is lost.
fn is_lost(setup: &[u64], c: &mut Cursor) -> bool {
    if LATEST <= c.count {
        return true;
    }
    let rate = math_float::of_any(cell(setup, ask_tables::LOSS));
    rand_draw::hits(c, rate)
}

// The draws of a message that nothing stops: loss, then latency. Nothing where it is lost.
fn drawn(
    setup: &[u64],
    prices: &[u64],
    from: u32,
    to: u32,
    bytes: u64,
    c: &mut Cursor,
) -> Option<u64> {
    if is_lost(setup, c) {
        return None;
    }
    let cost = cost(setup, prices, from, to, bytes);
    Some(sampled(setup, c, cost))
}

// The latency of a message, or that it would not arrive; and the words that its link's stream has given.
fn told(page: &mut Printer, latency: Option<u64>, count: u64) -> Outcome {
    match latency {
        Some(ns) => page.labelled(b"should ", ns),
        None => page.text(b"should -"),
    }
    page.ended(b" words=", count);
    Outcome::Done
}

// The place of a link's word count.
fn place(from: u64, to: u64) -> usize {
    if ask_tables::MOST_TILLS <= from || ask_tables::MOST_TILLS <= to {
        return ask_tables::LINKS;
    }
    (from * ask_tables::MOST_TILLS + to) as usize
}

// Would a message be delivered? Its draws move the link's own stream.
pub fn should(network: Network<'_>, m: Message, page: &mut Printer) -> Outcome {
    let Network {
        setup,
        net,
        tills,
        words,
        prices,
        blocks,
        ..
    } = network;
    let at = place(m.from, m.to);
    let count = cell(words, at);
    let (from, to) = match questions(m, cell(setup, ask_tables::TILLS), count) {
        Ok(tills) => tills,
        Err(refusal) => return refused(page, b"should", refusal),
    };
    if is_stopped(setup, net, tills, blocks, m) {
        return told(page, None, count);
    }
    let seed = cell(setup, ask_tables::SEED);
    let mut c = Cursor::at(rand_streams::link_key(seed, from, to), count);
    let latency = drawn(setup, prices, from, to, m.bytes, &mut c);
    put(words, at, c.count);
    told(page, latency, c.count)
}
