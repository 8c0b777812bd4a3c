// The parts of a run: the words behind the program's name, where the lines come from, a line acted on, the end.
#![tactic(auto)]

use sim_figures::Figures;
use sim_lend::Network;
use sim_openings::Opening;
use sim_printer::Printer;
use sim_session::lines::{Line, Session};
use sim_session::{input, lines, opens, system};
use std::rt::Env;

// What a word behind the program's name asks for.
#[derive(Clone, Copy, PartialEq, Eq)]
pub enum Asked {
    Nothing,
    Checklist,
    Morning,
}

// The first word that can name a file, behind the program's name and `checklist`.
pub const FILES: usize = 2;

// Bytes of a line: the hexadecimal digits of 65,536 wire bytes, and 4,096 more.
pub const LINE: usize = 2 * 65536 + 4096;

// Bytes that a line can stand for.
pub const ROOM: usize = LINE / 2;

// Bytes that are read at once.
pub const PIECE: usize = 65536;

// The largest sizes: tills, slots, types, regions.
pub const TILLS: usize = ask_tables::MOST_TILLS as usize;

pub const SLOTS: usize = ask_tables::MOST_SLOTS as usize;

pub const TYPES: usize = ask_tables::MOST_TYPES as usize;

pub const REGIONS: usize = ask_tables::MOST_REGIONS as usize;

// What a word asks for.
pub fn asked_by(word: &[u8]) -> Asked {
    match word {
        b"checklist" => Asked::Checklist,
        b"morning" => Asked::Morning,
        _ => Asked::Nothing,
    }
}

// What the first word behind the program's name asks for.
pub fn asked_first(rt: &impl Env) -> Asked {
    let mut word = [0u8; 16];
    let n = system::arg(rt, 1, &mut word);
    asked_by(sim_spelling::words::part(&word, 0, n))
}

// Of so many words, do some name files with scripts?
pub fn names_files(asked: Asked, words: usize) -> bool {
    asked == Asked::Checklist && FILES < words
}

// Where the lines come from: what the reader gives, or the morning that the program carries.
pub fn source(asked: Asked, piece: &mut [u8]) -> input::Input {
    if asked == Asked::Morning {
        return input::start(true, sim_morning::script(piece));
    }
    input::start(false, 0)
}

// An opening: its names and its key stand in `fresh`, its masks in the network's room. The fields are lent anew,
// as in sim_acts: the borrow checker covers no method that lends them all.
fn open_line(
    network: &mut Network<'_>,
    o: Opening,
    fresh: &[u8],
    r: Session,
    figures: &mut Figures,
    page: &mut Printer,
) -> Session {
    let lent = Network {
        setup: network.setup,
        net: network.net,
        names: network.names,
        tills: network.tills,
        words: network.words,
        keys: network.keys,
        prices: network.prices,
        seen: network.seen,
        waiting: network.waiting,
        rings: network.rings,
        rules: network.rules,
        blocks: network.blocks,
        log: network.log,
        out: network.out,
    };
    let answer = opens::opened(o, fresh, lent);
    sim_notes::opened(figures, answer, o.tills, o.log, network);
    lines::begun(page, r, answer)
}

// A line, acted on: an opening, a call on the network that is open, or neither. The answers go to `page`.
pub fn act(
    network: &mut Network<'_>,
    line: Line<'_>,
    r: Session,
    figures: &mut Figures,
    due: &mut [u64],
    page: &mut Printer,
) -> Session {
    match line {
        Line::Skipped => r,
        Line::Bad => {
            sim_answers::bad(page, r.lines);
            r
        }
        Line::Open { opening, fresh } => open_line(network, opening, fresh, r, figures, page),
        Line::Call(call) => {
            sim_acts::call(network, call, r, figures, due, page);
            r
        }
    }
}

// The end of a run: the checklist and the slips, where they were asked for.
pub fn finish(asked: Asked, network: Network<'_>, figures: &mut Figures, page: &mut Printer) {
    if asked == Asked::Nothing {
        page.finish();
        return;
    }
    sim_notes::ended(figures, &network);
    page.text(b"\n");
    sim_checklist::print(figures, page);
    page.finish();
}
