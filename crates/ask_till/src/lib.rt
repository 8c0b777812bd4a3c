// The questions of the calls on tills and marks, in order: 1, 4 and 5. All tables stay as they are.
#![tactic(auto)]

ghost use Rattle.std.specs.Prelude.{◌≡◌};
ghost use Rattle.ask_refusal.specs.Refusals.{asked};
ghost use Rattle.ask_till.specs.Questions.{tills_lent, seen_lent, both_lent, down_number, read_number, up_number, handlers_number, marks_number};

use ask_refusal::Refusal;

// Question 1, of a call that is lent `setup` and `tills`.
#[tactic(auto, unfolding(crate::specs::Questions::tills_lent))]
fn tills_lent(setup: &[u64], tills: &[u64]) -> bool
    ensures { result ≡ tills_lent setup.now tills.now }
{
    ask_tables::setup_held(setup) && ask_tables::tills_held(setup, tills)
}

// Question 1, of a call that is lent `setup` and `seen`.
#[tactic(auto, unfolding(crate::specs::Questions::seen_lent))]
fn seen_lent(setup: &[u64], seen: &[u64]) -> bool
    ensures { result ≡ seen_lent setup.now seen.now }
{
    ask_tables::setup_held(setup) && ask_tables::seen_held(setup, seen)
}

// Question 1, of a call that is lent the three.
#[tactic(auto, unfolding(crate::specs::Questions::both_lent))]
fn both_lent(setup: &[u64], tills: &[u64], seen: &[u64]) -> bool
    ensures { result ≡ both_lent setup.now tills.now seen.now }
{
    ask_tables::setup_held(setup)
        && ask_tables::tills_held(setup, tills)
        && ask_tables::seen_held(setup, seen)
}

// Questions 1 and 4, of a till that goes down.
#[tactic(auto, unfolding(crate::specs::Questions::down_number))]
pub fn down(setup: &[u64], tills: &[u64], seen: &[u64], t: u64) -> Result<(), Refusal>
    ensures { asked result ≡ down_number setup.now tills.now seen.now t }
{
    if !both_lent(setup, tills, seen) {
        return Err(Refusal::Tables);
    }
    if ask_tables::cell(setup, ask_tables::TILLS) <= t {
        return Err(Refusal::Till);
    }
    Ok(())
}

// Questions 1 and 4, of a till that is read.
#[tactic(auto, unfolding(crate::specs::Questions::read_number))]
pub fn read(setup: &[u64], tills: &[u64], t: u64) -> Result<(), Refusal>
    ensures { asked result ≡ read_number setup.now tills.now t }
{
    if !tills_lent(setup, tills) {
        return Err(Refusal::Tables);
    }
    if ask_tables::cell(setup, ask_tables::TILLS) <= t {
        return Err(Refusal::Till);
    }
    Ok(())
}

// Questions 1, 4 and 5, of a till that comes up with these shards.
#[tactic(auto, unfolding(crate::specs::Questions::up_number))]
pub fn up(setup: &[u64], tills: &[u64], t: u64, shards: u64) -> Result<(), Refusal>
    ensures { asked result ≡ up_number setup.now tills.now t shards }
{
    if !tills_lent(setup, tills) {
        return Err(Refusal::Tables);
    }
    if ask_tables::cell(setup, ask_tables::TILLS) <= t {
        return Err(Refusal::Till);
    }
    if ask_tables::power(ask_tables::cell(setup, ask_tables::SHARDS)) <= shards {
        return Err(Refusal::Range);
    }
    Ok(())
}

// Questions 1, 4 and 5, of the types that a till gossips and hosts from now on.
#[tactic(auto, unfolding(crate::specs::Questions::handlers_number))]
pub fn handlers(setup: &[u64], tills: &[u64], t: u64, gossip: u64, host: u64) -> Result<(), Refusal>
    ensures { asked result ≡ handlers_number setup.now tills.now t gossip host }
{
    if !tills_lent(setup, tills) {
        return Err(Refusal::Tables);
    }
    if ask_tables::cell(setup, ask_tables::TILLS) <= t {
        return Err(Refusal::Till);
    }
    let limit = ask_tables::power(ask_tables::cell(setup, ask_tables::TYPES));
    if limit <= gossip.max(host) {
        return Err(Refusal::Range);
    }
    Ok(())
}

// Question 1, then of the output, and 4.
#[tactic(auto, unfolding(crate::specs::Questions::marks_number))]
pub fn marks(setup: &[u64], seen: &[u64], places: u64, t: u64) -> Result<(), Refusal>
    ensures { asked result ≡ marks_number setup.now seen.now places t }
{
    if !seen_lent(setup, seen) {
        return Err(Refusal::Tables);
    }
    if places < ask_tables::cell(setup, ask_tables::SEEN_SLOTS) {
        return Err(Refusal::Tables);
    }
    if ask_tables::cell(setup, ask_tables::TILLS) <= t {
        return Err(Refusal::Till);
    }
    Ok(())
}
