// The rings of carried messages: one for each type and scope, 64 entries each, the oldest given up first.
// In one table stand the heads (count, first slot) of all rings, then their entries.
#![tactic(auto)]

ghost use Rattle.std.specs.Prelude.{◌≡◌, ◌+◌, ◌*◌, ◌≤◌, ◌<◌, refl};
ghost use Rattle.table_ring.specs.Ring.{sound_at};
ghost use Rattle.table_rings.specs.Rings.{slots, head_of, width, form, exact, none, kinds, scopes, number_of, Fits, count_of, entry_of, pushed};

use table_rows::Row;

// How many entries a ring keeps.
pub const SLOTS: usize = 64;

// Words of an entry, of a head, of a ring's entries.
pub const WIDTH: usize = 3;

pub const HEAD: usize = 2;

const SPAN: usize = SLOTS * WIDTH;

// Words of a ring: its head and its entries.
pub const SIZE: usize = HEAD + SPAN;

// Scopes of a type: a ring for each shard, and one for global.
pub const SCOPES: usize = 17;

// A message that a ring keeps.
#[derive(Clone, Copy)]
pub struct Entry {
    pub class: u64,
    pub wire: u64,
    pub tag: u64,
}

// The ring of a type and a scope.
pub fn number(kind: usize, scope: usize) -> usize
    requires { (kind < kinds) × (scope < scopes) }
    ensures is { result ≡ number_of kind scope }
    ensures within { result < kinds * scopes }
{
    kind * SCOPES + scope
}

// The entry of zeros.
fn no_entry() -> Entry
    ensures { result ≡ none }
{
    Entry {
        class: 0,
        wire: 0,
        tag: 0,
    }
}

impl Row for Entry {
    ghost form = { form };

    ghost WIDTH = { width };

    const WIDTH: usize = WIDTH;

    fn get(ws: &[u64], b: usize) -> Entry {
        Entry {
            class: ws[b],
            wire: ws[b + 1],
            tag: ws[b + 2],
        }
    }

    fn put(self, ws: &mut [u64], b: usize) {
        ws[b] = self.class;
        ws[b + 1] = self.wire;
        ws[b + 2] = self.tag;
    }

    ghost exact = { exact };

    ghost wide = { refl };
}

// `Fits rings r ws`, here and below: ring r's head and entries stand in the lent table. Each caller has the table anew, so that a type for it would ask the same where it is made.
// How many entries ring r has.
pub fn count(ws: &[u64], rings: usize, r: usize) -> u64
    requires { Fits rings r ws.now }
    ensures { result ≡ count_of ws.now r }
{
    ws[r * HEAD]
}

// Are ring r's count and first slot within its slots?
pub fn is_sound(ws: &[u64], rings: usize, r: usize) -> bool
    requires { Fits rings r ws.now }
    ensures { result ≡ sound_at slots (head_of r) ws.now }
{
    table_ring::is_sound(ws, r * HEAD, SLOTS)
}

// The k-th oldest entry of ring r; zeros where there is none. No Option: the engine's callers have asked the count, and would match a None that cannot be.
pub fn get(ws: &[u64], rings: usize, r: usize, k: usize) -> Entry
    requires { Fits rings r ws.now }
    ensures { result ≡ entry_of rings ws.now r k }
{
    let h = r * HEAD;
    let count = ws[h] as usize;
    let first = ws[h + 1] as usize;
    if !table_ring::is_sound(ws, h, SLOTS) {
        return no_entry();
    }
    if count <= k {
        return no_entry();
    }
    let s = table_ring::slot(SLOTS, first, k);
    Entry::get(ws, rings * HEAD + r * SPAN + s * WIDTH)
}

// One entry more for ring r, behind the others; where 64 stand there, the oldest goes.
pub fn push(ws: &mut [u64], rings: usize, r: usize, e: Entry)
    requires { Fits rings r ws.old }
    ensures { ws.new ≡ pushed rings ws.old r e }
{
    let h = r * HEAD;
    if !table_ring::is_sound(ws, h, SLOTS) {
        return;
    }
    let p = table_ring::next(ws, h, SLOTS);
    e.put(ws, rings * HEAD + r * SPAN + p.slot * WIDTH);
    table_ring::set_head(ws, h, p.count as u64, p.first as u64);
}
