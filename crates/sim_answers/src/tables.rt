// The tables themselves: tills, blocks, rules, word counts, rings.
ghost use Rattle.std.specs.Prelude.{◌+◌, ◌*◌, ◌≤◌, length};
ghost use Rattle.table_rings.specs.Rings.{head_width, span};

use crate::rows_text::scope;
use ask_tables::Till;
use fault_blocks::BlockWindow;
use fault_rules::FaultRule;
use sim_printer::Printer;
use table_rows::Row;

// Digits of a mask.
const MASK: usize = 4;

// A stroke and a mask.
fn mask(page: &mut Printer, mask: u64) {
    page.text(b"/");
    page.hex(mask, MASK);
}

// The tills on a line.
pub fn tills(page: &mut Printer, tills: &[u64]) {
    page.text(b"tills");
    let (rows, _) = tills.as_chunks::<{ ask_tables::TILL_WIDTH }>();
    for row in rows {
        let Till {
            up,
            gossip,
            host,
            shards,
        } = Till::get(row, 0);
        page.labelled(b" ", up);
        mask(page, shards);
        mask(page, gossip);
        mask(page, host);
    }
    page.text(b"\n");
}

// The rules on a line: id and fired count.
pub fn rules(page: &mut Printer, rules: &[u64]) {
    let (rows, _) = rules.as_chunks::<{ fault_rules::WIDTH }>();
    page.labelled(b"rules ", rows.len() as u64);
    for row in rows {
        let FaultRule { id, fired, .. } = FaultRule::get(row, 0);
        page.labelled(b" ", id);
        page.labelled(b":", fired);
    }
    page.text(b"\n");
}

// The words of a window.
type Window = [u64; fault_blocks::WIDTH];

// The pair of tills of a window.
fn pair(window: &Window) -> (u64, u64) {
    let BlockWindow { from, to, .. } = BlockWindow::get(window, 0);
    (from, to)
}

// Is this the first of the windows with its pair, of which it is the i-th?
fn is_first(windows: &[Window], i: usize, window: &Window) -> bool {
    let mut before = windows.iter().take(i);
    !before.any(|other| pair(other) == pair(window))
}

// How many pairs the windows have.
fn edges(windows: &[Window]) -> usize {
    windows
        .iter()
        .enumerate()
        .filter(|(i, window)| is_first(windows, *i, window))
        .count()
}

// How many pairs of tills the windows have, and how many windows there are.
pub fn blocks(page: &mut Printer, blocks: &[u64]) {
    let (windows, _) = blocks.as_chunks::<{ fault_blocks::WIDTH }>();
    page.labelled(b"blocks edges=", edges(windows) as u64);
    page.ended(b" windows=", windows.len() as u64);
}

// The word count of the fault stream, and those of the links that have some.
pub fn words(page: &mut Printer, words: &[u64], fault: u64) {
    page.ended(b"words fault=", fault);
    for (i, n) in words.iter().enumerate() {
        if *n != 0 {
            let from = i / ask_tables::LINK_ROW;
            let to = i % ask_tables::LINK_ROW;
            page.labelled(b"word ", from as u64);
            page.labelled(b" ", to as u64);
            page.ended(b" ", *n);
        }
    }
}

// The rings of a table.
fn rings_in(rings: &[u64]) -> usize
    ensures { result * (head_width + span) ≤ length rings.now }
{
    rings.len() / table_rings::SIZE
}

// How many entries ring r has.
fn count(rings: &[u64], r: usize) -> u64 {
    let n = rings_in(rings);
    if r < n {
        table_rings::count(rings, n, r)
    } else {
        0
    }
}

// Entry k of ring r, oldest first.
fn entry(page: &mut Printer, rings: &[u64], r: usize, k: usize) {
    let n = rings_in(rings);
    if r < n {
        let e = table_rings::get(rings, n, r, k);
        page.labelled(b" ", e.class);
        page.labelled(b"/", e.wire);
        page.labelled(b"/", e.tag);
    }
}

// Ring r, where it is not empty.
fn ring(page: &mut Printer, rings: &[u64], r: usize) {
    let n = count(rings, r);
    if n == 0 {
        return;
    }
    page.labelled(b"ring ", (r / table_rings::SCOPES) as u64);
    scope(page, (r % table_rings::SCOPES) as u64);
    page.labelled(b" ", n);
    for k in 0..n {
        entry(page, rings, r, k as usize);
    }
    page.text(b"\n");
}

// The rings of a type: global first, then the shards.
fn rings_of_type(page: &mut Printer, rings: &[u64], first: usize) {
    ring(page, rings, first.wrapping_add(table_rings::SCOPES - 1));
    for shard in 0..table_rings::SCOPES - 1 {
        ring(page, rings, first.wrapping_add(shard));
    }
}

// How many rings are not empty.
fn kept(rings: &[u64]) -> usize {
    (0..rings_in(rings))
        .filter(|r| count(rings, *r) != 0)
        .count()
}

// The rings that are not empty, by type, global before the shards.
pub fn rings(page: &mut Printer, rings: &[u64], types: usize) {
    page.ended(b"rings ", kept(rings) as u64);
    for i in 0..types {
        rings_of_type(page, rings, i.wrapping_mul(table_rings::SCOPES));
    }
}
