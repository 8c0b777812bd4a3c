// An audit: the calls of a recorded run are played on a network of its own, and every recorded answer is compared with the book's.
#![tactic(auto)]

use sim_audit_account::Account;
use sim_figures::Figures;
use sim_lend::Network;
use sim_printer::Printer;
use sim_run_parts::{LINE, PIECE, REGIONS, ROOM, SLOTS, TILLS, TYPES};
use sim_session::{input, lines, system};
use std::io::Read;
use std::rt::{Clock, Env, Files};

// A whole audit: line after line, to the end of what the reader gives (no run has more than 2^64), and the page.
fn run<R: Clock, S: Read>(
    rt: &R,
    from: &mut S,
    piece: &mut [u8],
    line: &mut [u8],
    room: &mut [u8],
    network: &mut Network<'_>,
    figures: &mut Figures,
    due: &mut [u64],
    page: &mut Printer,
    account: &mut Account,
    sides: &mut sim_audit_figures::Figures,
) {
    let mut i = input::start(false, 0);
    let mut r = lines::fresh(rt);
    for _ in 0..u64::MAX {
        let t = sim_audit_turn::next(
            rt,
            from,
            piece,
            line,
            room,
            network.out,
            page,
            account,
            sides,
            i,
            r,
        );
        r = sim_run_parts::act(network, t.line, t.session, figures, due, page);
        i = t.input;
        if i.ended {
            break;
        }
    }
    sim_audit_page::finish(page.as_slice(), account, sides);
}

// Bytes of the book's answers to one call.
const TEXT: usize = 524288;

// An audit on tables of its own: arrays of the largest sizes, all 0. Its tables stand on the stack once: it is not inlined
// into its callers, of which one calls another. They are written out here and in sim_run: without a heap they are this frame's, and no function
// can hand them out.
#[inline(never)]
fn on_tables<R: Clock, S: Read>(rt: &R, from: &mut S) {
    let mut piece = [0u8; PIECE];
    let mut line = [0u8; LINE];
    let mut room = [0u8; ROOM];
    let mut text = [0u8; TEXT];
    let mut network = Network {
        setup: &mut [0; ask_tables::SETUP_WIDTH],
        net: &mut [0; ask_tables::NET_WIDTH],
        names: &mut [0; ask_rows::NAMES_WIDTH],
        tills: &mut [0; TILLS * ask_tables::TILL_WIDTH],
        words: &mut [0; ask_tables::LINKS],
        keys: &mut [0; ask_tables::LINKS * ask_tables::LINK_KEY_WIDTH as usize],
        prices: &mut [0; REGIONS * REGIONS * ask_rows::LINK_WIDTH + TILLS],
        seen: &mut [0; TILLS + TILLS * SLOTS],
        waiting: &mut [0; SLOTS * table_waiting::WIDTH],
        rings: &mut [0; TYPES * table_rings::SCOPES * table_rings::SIZE],
        rules: &mut [0; fault_rules::SLOTS * fault_rules::WIDTH],
        blocks: &mut [0; fault_blocks::SLOTS * fault_blocks::WIDTH],
        log: &mut [0; table_log::RECORDS + SLOTS * table_delivery::WIDTH],
        out: &mut [0; SLOTS * call_flush_pass::ROW],
    };
    let mut figures = sim_figures::none();
    let mut due = [0u64; sim_notes::WIDTH];
    run(
        rt,
        from,
        &mut piece,
        &mut line,
        &mut room,
        &mut network,
        &mut figures,
        &mut due,
        &mut Printer::new(&mut text),
        &mut Account::new(),
        &mut sim_audit_figures::Figures::new(),
    );
}

// The audit of the recording that a file has. A file that does not open is told on standard error.
fn file<R: Files + Clock>(rt: &R, name: &[u8]) {
    match system::open_read(rt, name) {
        Ok(mut from) => {
            system::head(b"AUDIT OF ", name);
            on_tables(rt, &mut from);
        }
        Err(e) => system::fail(name, e),
    }
}

// The audit of the recording that word k names.
fn named<R: Files + Env + Clock>(rt: &R, k: usize) {
    let mut room = io::buffer();
    let n = system::arg(rt, k, &mut room);
    file(rt, sim_spelling::words::part(&room, 0, n));
}

// The first word that can name a file, behind the program's name and `audit`.
const FILES: usize = 2;

// Is `audit` the first word behind the program's name?
pub fn is_asked(rt: &impl Env) -> bool {
    let mut word = [0u8; 16];
    let n = system::arg(rt, 1, &mut word);
    word.get(..n) == Some(b"audit".as_slice())
}

// What the words behind `audit` ask for: the audit of each file that they name, or of standard input.
pub fn words<R: Files + Env + Clock + Input>(rt: &R) {
    let n = system::arg_count(rt);
    if FILES < n {
        for k in FILES..n {
            named(rt, k);
        }
        return;
    }
    on_tables(rt, &mut rt.reader());
}
