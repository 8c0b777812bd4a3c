// Drop cards: one byte as bit map, then only the fields whose bit stands, lowest first, little-endian. Bit 6 closes the window and has no field.
#![tactic(auto)]

ghost use Rattle.std.specs.Prelude.{◌≡◌, ◌<◌, ◌≤◌, get_or};
ghost use Rattle.fault_rule.specs.Rule.{bit_of};
ghost use Rattle.fault_card.specs.Card.{longest, Within, le_at, size_of, places_of, field_of, spec_of, map_exact, card_of};

use fault_rule::{DropSpec, Field};

// Where each field of a card starts, and where the card ends: its length is asked before a field is read, so it is laid out first.
#[derive(Clone, Copy)]
pub struct Places {
    pub kind: usize,
    pub from: usize,
    pub to: usize,
    pub tier: usize,
    pub probability: usize,
    pub window: usize,
    pub end: usize,
}

// The byte at i, 0 past the end.
fn byte(s: &[u8], i: usize) -> u64
    ensures { (result ≡ get_or s.now i 0) × (result < 256) }
{
    s.get(i).map_or(0, |b| u64::from(*b))
}

// The w bytes from i, little-endian; the highest is read first. By hand: `from_le_bytes` wants an array of one width, and a field has 1, 4 or 8 bytes, and 0 for those past the end.
fn little(s: &[u8], i: usize, w: usize) -> u64
    requires { (i ≤ longest) × (w ≤ 8) }
    ensures { result ≡ le_at s.now i w }
{
    let mut v: u64 = 0;
    for k in (0..w).rev() {
        v = v * 256 + byte(s, i + k);
    }
    v
}

// How many bytes a field of w bytes takes.
#[tactic(auto, unfolding(crate::specs::Card::size_of))]
fn size_of(map: u64, field: Field, w: usize) -> usize
    ensures { (result ≡ size_of map (bit_of field) w) × (result ≤ w) }
{
    if field.stands_in(map) { w } else { 0 }
}

// The fields of lower bits come first.
fn lay_out(map: u64) -> Places
    ensures { (result ≡ places_of map) × Within result }
{
    let kind: usize = 1;
    let from = kind + size_of(map, Field::Kind, 1);
    let to = from + size_of(map, Field::From, 4);
    let tier = to + size_of(map, Field::To, 4);
    let probability = tier + size_of(map, Field::Tier, 1);
    let window = probability + size_of(map, Field::Probability, 8);
    let end = window + size_of(map, Field::Window, 16);
    Places {
        kind,
        from,
        to,
        tier,
        probability,
        window,
        end,
    }
}

// The field of w bytes at i, 0 where its bit does not stand.
#[tactic(auto, unfolding(crate::specs::Card::field_of))]
fn field_at(s: &[u8], map: u64, field: Field, i: usize, w: usize) -> u64
    requires { (i ≤ longest) × (w ≤ 8) }
    ensures { result ≡ field_of s.now map (bit_of field) i w }
{
    if field.stands_in(map) {
        little(s, i, w)
    } else {
        0
    }
}

// The fields, each at its place.
fn fields(s: &[u8], map: u64, at: Places) -> DropSpec
    requires { Within at }
    ensures { result ≡ spec_of s.now map at }
{
    DropSpec {
        map,
        kind: field_at(s, map, Field::Kind, at.kind, 1),
        from: field_at(s, map, Field::From, at.from, 4),
        to: field_at(s, map, Field::To, at.to, 4),
        tier: field_at(s, map, Field::Tier, at.tier, 1),
        probability: field_at(s, map, Field::Probability, at.probability, 8),
        start: field_at(s, map, Field::Window, at.window, 8),
        end: field_at(s, map, Field::Window, at.window + 8, 8),
    }
}

// Is bit 7 clear, and bit 6 only beside bit 5?
#[tactic(auto, unfolding(crate::specs::Card::map_exact))]
fn map_exact(map: u64) -> bool
    ensures { result ≡ map_exact map }
{
    map < 128 && (Field::Window.stands_in(map) || !Field::Closed.stands_in(map))
}

// Question 13: such a map, length as the map says, tier at most 3. What the card says, or None where it is not exact.
pub fn read(s: &[u8]) -> Option<DropSpec>
    ensures { result ≡ card_of s.now }
{
    let map = byte(s, 0);
    if !map_exact(map) {
        return None;
    }
    let at = lay_out(map);
    if s.len() != at.end {
        return None;
    }
    let spec = fields(s, map, at);
    if spec.tier > 3 {
        return None;
    }
    Some(spec)
}
