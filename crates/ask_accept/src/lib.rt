// Accept's questions, in order: 1, 4 to 7; then, for a payload that opens, 8 to 11. All tables stay as they are.
#![tactic(auto)]

ghost use Rattle.std.specs.Prelude.{◌≡◌, Bool, ℕ, ◌&&◌, ltb, ◌<◌, ◌≤◌, length};
ghost use Rattle.ask_refusal.specs.Refusals.{asked};
ghost use Rattle.table_rows.specs.Rows.{all_of};
ghost use Rattle.spec_network.specs.Opening.{link, links, most_tills, most_words};
ghost use Rattle.spec_network.specs.Tables.{cell, sizes_at, setup_width, net_width};
ghost use Rattle.call_offer.specs.Needed.{SeenHeld};
ghost use Rattle.call_recipients.specs.Turning.{remaining};
ghost use Rattle.ask_accept.specs.Asking.{accept_lent, scope_exists, argument_number, slot_at, tail_number, Asked};

use ask_refusal::Refusal;
use call_offer::Outgoing;
use call_recipients::FixedTables;

// Question 1, of every table but the log. Each is lent alone: accept writes six of them afterwards, so a struct would be made for this question and taken apart at once, no plainer.
#[tactic(auto, unfolding(crate::specs::Asking::accept_lent))]
pub fn lent(
    fixed: FixedTables,
    net: &[u64],
    names: &[u8],
    words: &[u64],
    seen: &[u64],
    waiting: &[u64],
    rings: &[u64],
    rules: &[u64],
) -> bool
    ensures { result ≡ accept_lent
        fixed.entry.setup.now net.now names.now fixed.entry.tills.now words.now fixed.entry.keys.now fixed.entry.prices.now
        seen.now waiting.now rings.now rules.now fixed.entry.blocks.now }
{
    let setup = fixed.setup;
    ask_tables::setup_held(setup)
        && ask_tables::net_held(setup, net)
        && ask_rows::names_held(setup, names)
        && ask_tables::tills_held(setup, fixed.tills)
        && ask_tables::words_held(words)
        && ask_tables::keys_held(setup, fixed.keys)
        && ask_rows::prices_held(setup, fixed.prices)
        && ask_tables::seen_held(setup, seen)
        && ask_rows::waiting_held(setup, net, waiting)
        && ask_rows::rings_held(setup, rings)
        && ask_tables::rules_held(rules)
        && ask_tables::blocks_held(setup, net, fixed.blocks)
}

// Question 5, of a scope: global, or a shard that exists.
fn scope_exists(setup: &[u64], scope: u64) -> bool
    ensures { result ≡ scope_exists setup.now scope }
{
    scope == ask_tables::GLOBAL || scope < ask_tables::cell(setup, ask_tables::SHARDS)
}

// Question 5, of type, class and scope.
fn in_range(setup: &[u64], kind: u64, class: u64, scope: u64) -> bool
    ensures { result ≡ (ltb kind (sizes_at setup.now).types && ltb «class» (sizes_at setup.now).classes && scope_exists setup.now scope) }
{
    kind < ask_tables::cell(setup, ask_tables::TYPES)
        && class < ask_tables::cell(setup, ask_tables::CLASSES)
        && scope_exists(setup, scope)
}

// Questions 4, 5, 6 and 7.
#[tactic(auto, unfolding(crate::specs::Asking::argument_number))]
pub fn arguments(
    setup: &[u64],
    from: u64,
    kind: u64,
    class: u64,
    scope: u64,
    wire: u64,
    at: u64,
) -> Result<(), Refusal>
    ensures { asked result ≡ argument_number setup.now «from» kind «class» scope wire at 0 }
{
    if ask_tables::cell(setup, ask_tables::TILLS) <= from {
        return Err(Refusal::Till);
    }
    if !in_range(setup, kind, class, scope) {
        return Err(Refusal::Range);
    }
    if ask_tables::LONGEST_WIRE < wire {
        return Err(Refusal::Length);
    }
    if ask_tables::LATEST < at {
        return Err(Refusal::Time);
    }
    Ok(())
}

// Question 8, of one till: has the link to it given fewer than 2^40 words?
fn link_fresh(words: &[u64], from: u64, to: usize) -> bool
    requires { («from» < most_tills) × (to < most_tills) × (length words.now ≡ links) }
    ensures { result ≡ ltb (cell words.now (link «from» to)) most_words }
{
    words[from as usize * ask_tables::LINK_ROW + to] < ask_tables::MOST_WORDS
}

// Question 10, of one till: has it a free seen slot, or this id? In this order, since few tills are full, and only a full one's marks need a search.
// `to < tills` is what call_offer's marked asks for the place of the till's ids; the loop over the tills gives it, and a till as a type would be made there anew for each.
fn slot_free(setup: &[u64], seen: &[u64], id: u64, to: usize) -> bool
    requires { (length setup.now ≡ setup_width) × SeenHeld (sizes_at setup.now) seen.now × (to < (sizes_at setup.now).tills) }
    ensures { result ≡ slot_at setup.now seen.now id to }
{
    seen[to] < setup[ask_tables::SEEN_SLOTS] || call_offer::marked(setup, seen, to, id)
}

// Does every selected till pass the test?
// `Asked setup tills m`, here and below: it joins three values that an accept is given; a struct of them would ask the same where it is made.
fn each_selected<F: Fn(usize) -> bool>(setup: &[u64], tills: &[u64], m: Outgoing, test: F) -> bool
    ghost passes: { ℕ → Bool }
    requires asked { Asked setup.now tills.now m }
    requires callable { (to : ℕ) → to < (sizes_at setup.now).tills → F.pre test to }
    requires tells { (to : ℕ) (b : Bool) → to < (sizes_at setup.now).tills → F.post test to b → b ≡ passes to }
    ensures { result ≡ all_of passes (remaining setup.now tills.now m 0) }
{
    let n = setup[ask_tables::TILLS] as usize;
    for to in 0..n {
        if call_offer::selects(tills, m.scope, m.from, to) && !test(to) {
            return false;
        }
    }
    true
}

// How many tills are selected.
fn selected(setup: &[u64], tills: &[u64], m: Outgoing) -> u64
    requires { Asked setup.now tills.now m }
    ensures is { result ≡ length (remaining setup.now tills.now m 0) }
    ensures within { result ≤ most_tills }
{
    let n = setup[ask_tables::TILLS] as usize;
    let mut c: u64 = 0;
    for to in 0..n {
        c += u64::from(call_offer::selects(tills, m.scope, m.from, to));
    }
    c
}

// Questions 8, 9, 10 and 11.
pub fn tail(
    fixed: FixedTables,
    net: &[u64],
    words: &[u64],
    seen: &[u64],
    m: Outgoing,
) -> Result<(), Refusal>
    requires { Asked fixed.setup.now fixed.tills.now m × (length words.now ≡ links) × SeenHeld (sizes_at fixed.setup.now) seen.now × (length net.now ≡ net_width) }
    ensures { asked result ≡ tail_number fixed.entry.setup.now net.now fixed.entry.tills.now words.now seen.now m }
{
    let FixedTables { setup, tills, .. } = fixed;
    if ask_tables::MOST_WORDS <= net[ask_tables::FAULT_WORDS] {
        return Err(Refusal::Words);
    }
    let fresh = |to: usize|
        requires { (m.from < most_tills) × (to < most_tills) × (length words.now ≡ links) }
        ensures { result ≡ ltb (cell words.entry.now (link m.from to)) most_words }
    { link_fresh(words, m.from, to) };
    if !each_selected(setup, tills, m, fresh) {
        return Err(Refusal::Words);
    }
    let more = 3 * selected(setup, tills, m);
    if ask_tables::LAST_SEQUENCE - more < net[ask_tables::SEQUENCE] {
        return Err(Refusal::Sequences);
    }
    let free = |to: usize|
        requires { (length setup.now ≡ setup_width) × SeenHeld (sizes_at setup.now) seen.now × (to < (sizes_at setup.now).tills) }
        ensures { result ≡ slot_at setup.entry.now seen.entry.now m.id to }
    { slot_free(setup, seen, m.id, to) };
    if !each_selected(setup, tills, m, free) {
        return Err(Refusal::SeenSlots);
    }
    let slots = setup[ask_tables::WAIT_SLOTS];
    if slots < more || slots - more < net[ask_tables::WAITING] {
        return Err(Refusal::WaitingSlots);
    }
    Ok(())
}
