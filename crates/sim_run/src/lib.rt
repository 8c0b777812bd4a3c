// Runs of scripts on networks: a script is read line by line, and every answer goes to standard output; what the words behind a program's
// name ask for. The programs over it are `simulate` and `simulate_scenarios`.
#![tactic(auto)]

use sim_figures::Figures;
use sim_lend::Network;
use sim_printer::Printer;
use sim_run_parts::{Asked, LINE, PIECE, REGIONS, ROOM, SLOTS, TILLS, TYPES};
use sim_session::{lines, system, turns};
use std::io::Read;
use std::rt::{Clock, Env, Files};

// A whole run: line after line, to the end of what the reader gives (no run has more than 2^64).
fn run<R: Clock, S: Read>(
    rt: &R,
    asked: Asked,
    from: &mut S,
    piece: &mut [u8],
    line: &mut [u8],
    room: &mut [u8],
    network: &mut Network<'_>,
    figures: &mut Figures,
    due: &mut [u64],
    page: &mut Printer,
) {
    let mut i = sim_run_parts::source(asked, piece);
    let mut r = lines::fresh(rt);
    for _ in 0..u64::MAX {
        let t = turns::next(rt, from, piece, line, room, network.out, i, r);
        r = sim_run_parts::act(network, t.line, t.session, figures, due, page);
        i = t.input;
        if i.ended {
            break;
        }
    }
}

// A run on tables of its own: arrays of the largest sizes, all 0. Its tables stand on the stack once: it is not inlined
// into its callers, of which one calls another. They are written out here and in the audits: without a heap they are this frame's, and no function
// can hand them out.
#[inline(never)]
fn on_tables<R: Clock, S: Read>(rt: &R, asked: Asked, from: &mut S) {
    let mut piece = [0u8; PIECE];
    let mut line = [0u8; LINE];
    let mut room = [0u8; ROOM];
    let mut text = [0u8; PIECE];
    let mut network = Network {
        setup: &mut [0; ask_tables::SETUP_WIDTH],
        net: &mut [0; ask_tables::NET_WIDTH],
        names: &mut [0; ask_rows::NAMES_WIDTH],
        tills: &mut [0; TILLS * ask_tables::TILL_WIDTH],
        words: &mut [0; ask_tables::LINKS],
        keys: &mut [0; ask_tables::LINKS * ask_tables::LINK_KEY_WIDTH as usize],
        prices: &mut [0; REGIONS * REGIONS * ask_rows::LINK_WIDTH + TILLS],
        seen: &mut [0; TILLS + TILLS * SLOTS],
        waiting: &mut [0; SLOTS * table_waiting::WIDTH],
        rings: &mut [0; TYPES * table_rings::SCOPES * table_rings::SIZE],
        rules: &mut [0; fault_rules::SLOTS * fault_rules::WIDTH],
        blocks: &mut [0; fault_blocks::SLOTS * fault_blocks::WIDTH],
        log: &mut [0; table_log::RECORDS + SLOTS * table_delivery::WIDTH],
        out: &mut [0; SLOTS * call_flush_pass::ROW],
    };
    let mut figures = sim_figures::none();
    let mut due = [0u64; sim_notes::WIDTH];
    let mut page = Printer::new(&mut text);
    run(
        rt,
        asked,
        from,
        &mut piece,
        &mut line,
        &mut room,
        &mut network,
        &mut figures,
        &mut due,
        &mut page,
    );
    sim_run_parts::finish(asked, network, &mut figures, &mut page);
}

// The run of the script that a file has, with the checklist. A file that does not open is told on standard error.
fn file<R: Files + Clock>(rt: &R, name: &[u8]) {
    match system::open_read(rt, name) {
        Ok(mut from) => {
            system::head(b"RUN OF ", name);
            on_tables(rt, Asked::Checklist, &mut from);
        }
        Err(e) => system::fail(name, e),
    }
}

// The run that word k names: `morning`, or a file's.
fn named<R: Files + Env + Clock>(rt: &R, k: usize) {
    let mut room = io::buffer();
    let n = system::arg(rt, k, &mut room);
    let name = sim_spelling::words::part(&room, 0, n);
    if sim_run_parts::asked_by(name) == Asked::Morning {
        system::head(b"RUN OF ", name);
        on_tables(rt, Asked::Morning, &mut std::io::empty());
        return;
    }
    file(rt, name);
}

// What the words behind the program's name ask for: a run for each word behind `checklist`, where there are any, or one run.
pub fn words<R: Files + Env + Clock + Input>(rt: &R) {
    let asked = sim_run_parts::asked_first(rt);
    let n = system::arg_count(rt);
    if sim_run_parts::names_files(asked, n) {
        for k in sim_run_parts::FILES..n {
            named(rt, k);
        }
        return;
    }
    on_tables(rt, asked, &mut rt.reader());
}
