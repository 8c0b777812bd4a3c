// The questions of the rule calls, in order: 1, 12, 13 and 18 of install; 1, 4, 5, 7 and 8 of decide. All tables stay as they are.
#![tactic(auto)]

ghost use Rattle.std.specs.Prelude.{◌≡◌};
ghost use Rattle.ask_refusal.specs.Refusals.{asked};
ghost use Rattle.ask_rule.specs.Questions.{rules_lent, lent_number, place_number, exact_number, card_number, decide_number};

use ask_refusal::Refusal;
use fault_rule::MessageContext;

// The tiers are numbered from 0: C and the cards give the number, so an enum would be made of it by this very comparison, no plainer.
const LAST_TIER: u64 = 3;

// Are the tables that a rule call is lent as they must be?
#[tactic(auto, unfolding(crate::specs::Questions::rules_lent))]
fn rules_lent(setup: &[u64], net: &[u64], rules: &[u64]) -> bool
    ensures { result ≡ rules_lent setup.now net.now rules.now }
{
    ask_tables::setup_held(setup)
        && ask_tables::net_held(setup, net)
        && ask_tables::rules_held(rules)
}

// Question 1, as a refusal.
pub fn lent(setup: &[u64], net: &[u64], rules: &[u64]) -> Result<(), Refusal>
    ensures { asked result ≡ lent_number setup.now net.now rules.now 0 }
{
    if !rules_lent(setup, net, rules) {
        return Err(Refusal::Tables);
    }
    Ok(())
}

// Question 12: is a rule place free, and were fewer rules ever installed than may be?
#[tactic(auto, unfolding(crate::specs::Questions::place_number))]
fn place(net: &[u64]) -> Result<(), Refusal>
    ensures { asked result ≡ place_number net.now }
{
    if fault_rules::SLOTS as u64 <= ask_tables::cell(net, ask_tables::RULES) {
        return Err(Refusal::Places);
    }
    if fault_rules::MOST <= ask_tables::cell(net, ask_tables::INSTALLED) {
        return Err(Refusal::Places);
    }
    Ok(())
}

// Questions 13 and 18: is the card exact, and the end of its window, where it has one, after the start?
fn exact(card: &[u8]) -> Result<(), Refusal>
    ensures { asked result ≡ exact_number card.now }
{
    let Some(spec) = fault_card::read(card) else {
        return Err(Refusal::Card);
    };
    if !spec.window().is_forward() {
        return Err(Refusal::Window);
    }
    Ok(())
}

// Questions 1, 12, 13 and 18.
pub fn install(setup: &[u64], net: &[u64], rules: &[u64], card: &[u8]) -> Result<(), Refusal>
    ensures { asked result ≡ card_number setup.now net.now rules.now card.now }
{
    lent(setup, net, rules)?;
    place(net)?;
    exact(card)
}

// Questions 1, 4, 5, 7 and 8.
pub fn decide(setup: &[u64], net: &[u64], rules: &[u64], m: MessageContext) -> Result<(), Refusal>
    ensures { asked result ≡ decide_number setup.now net.now rules.now m }
{
    lent(setup, net, rules)?;
    if ask_tables::cell(setup, ask_tables::TILLS) <= m.from.max(m.to) {
        return Err(Refusal::Till);
    }
    if ask_tables::cell(setup, ask_tables::TYPES) <= m.kind {
        return Err(Refusal::Range);
    }
    if m.tier > LAST_TIER {
        return Err(Refusal::Range);
    }
    if m.now > ask_tables::LATEST {
        return Err(Refusal::Time);
    }
    if ask_tables::MOST_WORDS <= ask_tables::cell(net, ask_tables::FAULT_WORDS) {
        return Err(Refusal::Words);
    }
    Ok(())
}
