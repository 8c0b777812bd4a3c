// The drop rules of a network: rows of a lent table, in install order.
// A table and how many of its rows are in use stay two parameters, and `n * rule_width ≤ length ws` stands at each function: a rule more is put behind those rows, and a function
// that took only their part would be called with a slice whose rows must be shown to be the table's first n, at each call: no plainer.
#![tactic(auto)]

ghost use Rattle.std.specs.Prelude.{◌≡◌, ◌+◌, ◌-◌, ◌*◌, ◌<◌, ◌≤◌, length, MatchOption, refl};
ghost use Rattle.table_shift.specs.Shift.{closed};
ghost use Rattle.fault_rules.specs.Rules.{rule_width, rule_slots, form, exact, rules_of, index_of, reading_of, removed_of, number_in, install_number, install_table, remove_table, fire_table};

use fault_rule::DropSpec;
use table_rows::Row;

// The words of a row, and the place of the fired count in it.
pub const WIDTH: usize = 10;

pub const FIRED: usize = 9;
// The rules that may stand at a time, and that may ever be installed.
pub const SLOTS: usize = 64;

pub const MOST: u64 = 4294967295;

// A rule as its row holds it: its id, what its card said, and how often it fired.
#[derive(Clone, Copy)]
pub struct FaultRule {
    pub id: u64,
    pub spec: DropSpec,
    pub fired: u64,
}

// What a removal answers: how often the rule had fired, where there was one, and how many rules are left.
#[derive(Clone, Copy)]
pub struct Removed {
    pub fired: Option<u64>,
    pub left: usize,
}

// Why a rule is not installed: no place is free for it (question 12), or its card is not exact (question 13).
#[derive(Clone, Copy, Debug, PartialEq, Eq)]
pub enum InstallError {
    Full,
    Card,
}

impl Row for FaultRule {
    ghost form = { form };

    ghost WIDTH = { rule_width };

    const WIDTH: usize = WIDTH;

    fn get(ws: &[u64], b: usize) -> FaultRule {
        let spec = DropSpec {
            map: ws[b + 1],
            kind: ws[b + 2],
            from: ws[b + 3],
            to: ws[b + 4],
            tier: ws[b + 5],
            probability: ws[b + 6],
            start: ws[b + 7],
            end: ws[b + 8],
        };
        FaultRule {
            id: ws[b],
            spec,
            fired: ws[b + FIRED],
        }
    }

    fn put(self, ws: &mut [u64], b: usize) {
        let DropSpec {
            map,
            kind,
            from,
            to,
            tier,
            probability,
            start,
            end,
        } = self.spec;
        ws[b] = self.id;
        ws[b + 1] = map;
        ws[b + 2] = kind;
        ws[b + 3] = from;
        ws[b + 4] = to;
        ws[b + 5] = tier;
        ws[b + 6] = probability;
        ws[b + 7] = start;
        ws[b + 8] = end;
        ws[b + FIRED] = self.fired;
    }

    ghost exact = { exact };

    ghost wide = { refl };
}

// The place of the rule with this id among the first n. By hand: `table_rows::passing` reads each row whole, and gives n, not None, where there is none.
pub fn find(ws: &[u64], n: usize, id: u64) -> Option<usize>
    requires { n * rule_width ≤ length ws.now }
    ensures { MatchOption result (index_of id (rules_of ws.now n) ≡ n) (λ p. (p ≡ index_of id (rules_of ws.now n)) × (p < n)) }
{
    for i in 0..n {
        if ws[i * WIDTH] == id {
            return Some(i);
        }
    }
    None
}

// The rule stands last with the next id, if a place is free and the card is exact.
pub fn install(ws: &mut [u64], n: usize, ever: u64, bytes: &[u8]) -> Result<(), InstallError>
    requires { rule_slots * rule_width ≤ length ws.old }
    ensures { (number_in result ≡ install_number n ever bytes.now) × (ws.new ≡ install_table ws.old n ever bytes.now) }
{
    if SLOTS <= n || MOST <= ever {
        return Err(InstallError::Full);
    }
    let Some(spec) = fault_card::read(bytes) else {
        return Err(InstallError::Card);
    };
    let rule = FaultRule {
        id: ever,
        spec,
        fired: 0,
    };
    rule.put(ws, n * WIDTH);
    Ok(())
}

// How often the rule with this id, among the first n, has fired.
pub fn fired(ws: &[u64], n: usize, id: u64) -> Option<u64>
    requires { n * rule_width ≤ length ws.now }
    ensures { result ≡ reading_of id (rules_of ws.now n) }
{
    let p = find(ws, n, id)?;
    Some(ws[p * WIDTH + FIRED])
}

// The rows from a place on, of n, move down to another.
fn move_rows(ws: &mut [u64], from: usize, n: usize, to: usize)
    requires { (to ≤ «from») × («from» ≤ n) × (n * rule_width ≤ length ws.old) }
    ensures { ws.new ≡ closed ws.old («from» * rule_width) (n * rule_width) ((«from» - to) * rule_width) }
{
    table_shift::move_down(ws, from * WIDTH, n * WIDTH, (from - to) * WIDTH);
}

// The rule with this id, among the first n, goes; those behind it move down.
pub fn remove(ws: &mut [u64], n: usize, id: u64) -> Removed
    requires { n * rule_width ≤ length ws.old }
    ensures { (result ≡ removed_of id (rules_of ws.old n)) × (ws.new ≡ remove_table ws.old n id) }
{
    let Some(p) = find(ws, n, id) else {
        return Removed {
            fired: None,
            left: n,
        };
    };
    let fired = ws[p * WIDTH + FIRED];
    move_rows(ws, p + 1, n, p);
    Removed {
        fired: Some(fired),
        left: n - 1,
    }
}

// The rule at place p has fired once more; the count wraps. Past the table nothing changes.
pub fn fire(ws: &mut [u64], p: usize)
    ensures { ws.new ≡ fire_table ws.old p }
{
    if p < ws.len() / WIDTH {
        let at = p * WIDTH + FIRED;
        ws[at] = ws[at].wrapping_add(1);
    }
}
