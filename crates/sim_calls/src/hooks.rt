// Hooks that write a counter, so that limits can be tried.
use ask_refusal::Refusal;
use ask_tables::{FAULT_WORDS, INSTALLED, MOST_TILLS, RULES, SEQUENCE, TILLS, cell, put};
use sim_lend::Network;
use sim_outcome::{Outcome, done};
use sim_printer::Printer;
use sim_script::Hook;

// The fired count of a rule; no rule, no change.
fn set_fired(rules: &mut [u64], n: u64, id: u64, to: u64) {
    let rows = rules.chunks_exact_mut(fault_rules::WIDTH);
    for row in rows.take(n as usize) {
        if cell(row, 0) == id {
            put(row, fault_rules::FIRED, to);
            return;
        }
    }
}

// The word count of a link between two of the opening's tills.
fn set_words(words: &mut [u64], tills: u64, from: u64, to: u64, n: u64) -> Result<(), Refusal> {
    if tills <= from || tills <= to || MOST_TILLS < tills {
        return Err(Refusal::Till);
    }
    put(words, (from * MOST_TILLS + to) as usize, n);
    Ok(())
}

// Writes a counter.
pub fn hook(network: Network<'_>, hook: Hook, page: &mut Printer) -> Outcome {
    let Network {
        setup,
        net,
        words,
        rules,
        ..
    } = network;
    match hook {
        Hook::Fired { rule, count } => {
            set_fired(rules, cell(net, RULES), rule, count);
            done(page, b"setfired", Ok(()))
        }
        Hook::Words { from, to, count } => {
            let answer = set_words(words, cell(setup, TILLS), from, to, count);
            done(page, b"setwords", answer)
        }
        Hook::FaultWords { count } => {
            put(net, FAULT_WORDS, count);
            done(page, b"setwords", Ok(()))
        }
        Hook::Sequence { last } => {
            put(net, SEQUENCE, last);
            done(page, b"setseq", Ok(()))
        }
        Hook::Installed { count } => {
            put(net, INSTALLED, count);
            done(page, b"setrules", Ok(()))
        }
    }
}
