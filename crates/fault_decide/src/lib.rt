// Which rule drops a message: the first, in install order, that applies and whose draw hits.
// How far below 2^63 the count must be stands at each function: one rule takes two words at most, n of them 2 * n, so no invariant of the cursor says it.
// A table and how many of its rules are in use stay two parameters, as in fault_rules.
#![tactic(auto)]

ghost use Rattle.std.specs.Prelude.{◌≡◌, ◌+◌, ◌*◌, ◌≤◌, ◌<◌, ◌^◌, length};
ghost use Rattle.fault_rules.specs.Rules.{rule_width, rule_at, rules_of};
ghost use Rattle.fault_decide.specs.Decide.{tried, try_action, try_rule, decision, decide_of};

use fault_rule::{FaultAction, MessageContext, Rule};
use fault_rules::FaultRule;
use rand_streams::Cursor;
use table_rows::Row;

// Does a rule that applies drop the message? A plain rule takes no draw; a probability takes one, whether it hits or not, and hits
// unless the fraction is at least the probability.
fn drops(a: FaultAction, c: &mut Cursor) -> bool
    requires { c.old.count + 1 < 2 ^ 63 }
    ensures { (tried result c.new.count ≡ try_action c.old.key a c.old.count) × (c.new.key ≡ c.old.key) }
{
    match a {
        FaultAction::Drop => true,
        FaultAction::DropWithProbability(p) => {
            let x = rand_draw::draw_fraction(c);
            !(x >= p)
        }
    }
}

// Does the rule whose row starts at b drop the message?
fn row_drops(ws: &[u64], b: usize, c: &mut Cursor, m: MessageContext) -> bool
    requires { (b + rule_width ≤ length ws.now) × (c.old.count + 1 < 2 ^ 63) }
    ensures { (tried result c.new.count ≡ try_rule c.old.key m (rule_at ws.now b) c.old.count) × (c.new.key ≡ c.old.key) }
{
    let row = FaultRule::get(ws, b);
    let rule = Rule::from(row.spec);
    rule.applies(m) && drops(rule.action, c)
}

// The place of the rule that drops the message, among the first n of the table; the fault stream's cursor moves past their draws.
// Nothing is written: `fault_rules::fire` counts a drop.
pub fn decide(ws: &[u64], n: usize, c: &mut Cursor, m: MessageContext) -> Option<usize>
    requires { (n * rule_width ≤ length ws.now) × (c.old.count + 2 * n < 2 ^ 63) }
    ensures { (decision result n c.new.count ≡ decide_of c.old.key m (rules_of ws.now n) c.old.count) × (c.new.key ≡ c.old.key) }
{
    for i in 0..n {
        if row_drops(ws, i * fault_rules::WIDTH, c, m) {
            return Some(i);
        }
    }
    None
}
