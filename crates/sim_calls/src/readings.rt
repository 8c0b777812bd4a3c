// The calls that read a network.
use ask_refusal::Refusal;
use ask_tables::{BLOCKS, FAULT_WORDS, RULES, TILLS, TYPES, cell};
use sim_lend::{Network, rows};
use sim_outcome::{Outcome, found, refused, valued};
use sim_printer::Printer;
use sim_script::{Single, Table};

// Whether messages are blocked: 1 or 0.
fn blocked(page: &mut Printer, answer: Result<bool, Refusal>) -> Outcome {
    valued(page, b"isblocked", b"isblocked ", answer.map(u64::from))
}

// How often a rule fired, or that it is gone.
fn fired(page: &mut Printer, answer: Result<Option<u64>, Refusal>) -> Outcome {
    found(page, b"fired", b"fired ", b"fired gone\n", answer)
}

// The time of the first copy, or that there is none.
fn next(page: &mut Printer, answer: Result<Option<u64>, Refusal>) -> Outcome {
    found(page, b"next", b"next ", b"next -\n", answer)
}

// The marks of a till.
fn marks(page: &mut Printer, t: u64, marks: &[u64]) -> Outcome {
    page.labelled(b"seen ", t);
    page.labelled(b" ", marks.len() as u64);
    sim_answers::ids(page, marks);
    page.text(b"\n");
    Outcome::Done
}

// The marks of a till, through the output.
fn seen_by(t: u64, setup: &[u64], seen: &[u64], out: &mut [u64], page: &mut Printer) -> Outcome {
    match call_till::marks_of(setup, seen, t, out) {
        Ok(n) => marks(page, t, sim_lend::part(out, n as usize)),
        Err(refusal) => refused(page, b"seen", refusal),
    }
}

// The marks of every till.
fn all_seen(setup: &[u64], seen: &[u64], out: &mut [u64], page: &mut Printer) {
    for t in 0..cell(setup, TILLS) {
        seen_by(t, setup, seen, out, page);
    }
}

// The waiting copies, through the output.
fn waiting_list(
    setup: &[u64],
    net: &[u64],
    waiting: &[u64],
    out: &mut [u64],
    page: &mut Printer,
) -> Outcome {
    match call_waiting::waiting_copies(setup, net, waiting, out) {
        Ok(n) => {
            page.ended(b"waiting ", n);
            sim_answers::copies(page, rows(out, table_waiting::WIDTH, n));
            Outcome::Done
        }
        Err(refusal) => refused(page, b"waiting", refusal),
    }
}

// The tills of the opening, the windows in force, the rules in force.
fn tills_of<'a>(setup: &[u64], tills: &'a [u64]) -> &'a [u64] {
    rows(tills, ask_tables::TILL_WIDTH, cell(setup, TILLS))
}

fn blocks_of<'a>(net: &[u64], blocks: &'a [u64]) -> &'a [u64] {
    rows(blocks, fault_blocks::WIDTH, cell(net, BLOCKS))
}

fn rules_of<'a>(net: &[u64], rules: &'a [u64]) -> &'a [u64] {
    rows(rules, fault_rules::WIDTH, cell(net, RULES))
}

// The tables, the marks of every till, and the waiting copies.
pub fn state(network: Network<'_>, page: &mut Printer) -> Outcome {
    let Network {
        setup,
        net,
        tills,
        words,
        seen,
        waiting,
        rings,
        rules,
        blocks,
        out,
        ..
    } = network;
    sim_answers::tills(page, tills_of(setup, tills));
    sim_answers::blocks(page, blocks_of(net, blocks));
    sim_answers::rules(page, rules_of(net, rules));
    sim_answers::words(page, words, cell(net, FAULT_WORDS));
    sim_answers::rings(page, rings, cell(setup, TYPES) as usize);
    all_seen(setup, seen, out, page);
    waiting_list(setup, net, waiting, out, page)
}

// A table by itself.
pub fn table(network: Network<'_>, table: Table, page: &mut Printer) -> Outcome {
    let Network {
        setup,
        net,
        tills,
        words,
        rings,
        rules,
        blocks,
        ..
    } = network;
    match table {
        Table::Tills => sim_answers::tills(page, tills_of(setup, tills)),
        Table::Blocks => sim_answers::blocks(page, blocks_of(net, blocks)),
        Table::Rules => sim_answers::rules(page, rules_of(net, rules)),
        Table::Words => sim_answers::words(page, words, cell(net, FAULT_WORDS)),
        Table::Rings => sim_answers::rings(page, rings, cell(setup, TYPES) as usize),
    }
    Outcome::Done
}

// A reading of one answer or one list.
pub fn single(network: Network<'_>, reading: Single, page: &mut Printer) -> Outcome {
    let Network {
        setup,
        net,
        seen,
        waiting,
        rules,
        blocks,
        out,
        ..
    } = network;
    match reading {
        Single::IsBlocked { from, to, at } => {
            let answer = call_block::is_blocked(setup, net, blocks, from, to, at);
            blocked(page, answer)
        }
        Single::Fired { rule } => {
            let answer = call_rule::fired(setup, net, rules, rule);
            fired(page, answer)
        }
        Single::Transit { till } => {
            let answer = call_waiting::in_transit(setup, net, waiting, till);
            valued(page, b"transit", b"transit ", answer)
        }
        Single::Next => {
            let answer = call_waiting::next_time(setup, net, waiting);
            next(page, answer)
        }
        Single::Waiting => waiting_list(setup, net, waiting, out, page),
        Single::Seen { till } => seen_by(till, setup, seen, out, page),
        Single::AllSeen => {
            all_seen(setup, seen, out, page);
            Outcome::Done
        }
    }
}
