// Rings: an entry's count, a read with an entry more, and question 1's pass.
ghost use Rattle.std.specs.Prelude.{◌≡◌, [], ◌∷◌};
ghost use Rattle.bench_tables.specs.Answers.{left, has_rows, ring_size, ring_fits, count_of, turn_of, rings_of};

use crate::{Told, unfit, valued, yes_or_no};
use table_rings::Entry;
use table_scan::Limits;

// Are there so many rings?
fn rings_fit(ws: &[u64], rings: usize) -> bool
    ensures { result ≡ has_rows ring_size ws.now rings }
{
    rings <= ws.len() / table_rings::SIZE
}

// Is r one of the rings, with a head in range?
#[tactic(auto, unfolding(crate::specs::Answers::ring_fits))]
fn ring_fits(ws: &[u64], rings: usize, r: usize) -> bool
    ensures { result ≡ ring_fits ws.now rings r }
{
    rings_fit(ws, rings) && r < rings && table_rings::is_sound(ws, rings, r)
}

// How many entries ring r has.
#[unsafe(no_mangle)]
pub extern "C" fn tables_ring_count(ws: &[u64], rings: usize, r: usize) -> Told
    ensures { result ≡ count_of ws.now rings r }
{
    if !ring_fits(ws, rings, r) {
        return unfit();
    }
    valued(table_rings::count(ws, rings, r))
}

// The tag of the k-th oldest entry of ring r; then one entry more.
#[unsafe(no_mangle)]
pub extern "C" fn tables_ring_turn(
    ws: &mut [u64],
    rings: usize,
    r: usize,
    k: usize,
    class: u64,
    wire: u64,
    tag: u64,
) -> Told
    ensures { left result (ws.new ∷ []) ≡ turn_of ws.old rings r k (record { class = «class»; wire = wire; tag = tag }) }
{
    if !ring_fits(ws, rings, r) {
        return unfit();
    }
    let old = table_rings::get(ws, rings, r, k);
    let e = Entry { class, wire, tag };
    table_rings::push(ws, rings, r, e);
    valued(old.tag)
}

// Are all rings in range?
#[unsafe(no_mangle)]
pub extern "C" fn tables_rings_near(ws: &[u64], rings: usize, classes: u64, wire: u64) -> Told
    ensures { result ≡ rings_of ws.now rings (record { hosts = 0; kinds = 0; classes = classes; wire = wire }) }
{
    if !rings_fit(ws, rings) {
        return unfit();
    }
    let l = Limits {
        hosts: 0,
        kinds: 0,
        classes,
        wire,
    };
    yes_or_no(table_scan::rings_near(ws, rings, l))
}
