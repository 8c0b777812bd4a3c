// The rule calls on the network's tables: install, remove, fired, decide.
#![tactic(auto)]

ghost use Rattle.call_reply.specs.Reply.{value_reply, found_reply, test_reply};
ghost use Rattle.call_rule.specs.Calls.{DoesInstall, DoesRemove, DoesFired, DoesDecide};

use ask_refusal::Refusal;
use fault_rule::MessageContext;

// A new rule stands last. Answers its id.
pub fn install(
    setup: &[u64],
    net: &mut [u64],
    rules: &mut [u64],
    card: &[u8],
) -> Result<u64, Refusal>
    ensures { DoesInstall
        setup.now net.old rules.old
        net.new rules.new
        card.now (value_reply result) }
{
    ask_rule::install(setup, net, rules, card)?;
    let n = net[ask_tables::RULES];
    let ever = net[ask_tables::INSTALLED];
    fault_rules::install(rules, n as usize, ever, card).unwrap();
    net[ask_tables::RULES] = n + 1;
    net[ask_tables::INSTALLED] = ever + 1;
    Ok(ever)
}

// The rule goes, if there is one. Answers its last fired count.
pub fn remove(
    setup: &[u64],
    net: &mut [u64],
    rules: &mut [u64],
    id: u64,
) -> Result<Option<u64>, Refusal>
    ensures { DoesRemove
        setup.now net.old rules.old
        net.new rules.new
        id (found_reply result) }
{
    ask_rule::lent(setup, net, rules)?;
    let n = net[ask_tables::RULES];
    let gone = fault_rules::remove(rules, n as usize, id);
    net[ask_tables::RULES] = gone.left as u64;
    Ok(gone.fired)
}

// How often a rule has fired, if there is one.
pub fn fired(setup: &[u64], net: &[u64], rules: &[u64], id: u64) -> Result<Option<u64>, Refusal>
    ensures { DoesFired
        setup.now net.now rules.now
        id (found_reply result) }
{
    ask_rule::lent(setup, net, rules)?;
    let n = net[ask_tables::RULES];
    Ok(fault_rules::fired(rules, n as usize, id))
}

// The word count moves, and the rule that drops has fired once more. Is the message dropped?
pub fn decide(
    setup: &[u64],
    net: &mut [u64],
    rules: &mut [u64],
    from: u64,
    to: u64,
    kind: u64,
    tier: u64,
    at: u64,
) -> Result<bool, Refusal>
    ensures { DoesDecide
        setup.now net.old rules.old
        net.new rules.new
        «from» to kind tier at (test_reply result) }
{
    let m = MessageContext {
        kind,
        from,
        to,
        tier,
        now: at,
    };
    ask_rule::decide(setup, net, rules, m)?;
    let n = net[ask_tables::RULES];
    let words = net[ask_tables::FAULT_WORDS];
    let mut c = link_draws::fault_at(setup, words);
    let drops = fault_decide::decide(rules, n as usize, &mut c, m);
    net[ask_tables::FAULT_WORDS] = c.count;
    if let Some(place) = drops {
        fault_rules::fire(rules, place);
        return Ok(true);
    }
    Ok(false)
}
