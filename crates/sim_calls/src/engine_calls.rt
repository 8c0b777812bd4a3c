// The till, block and rule calls.
use ask_refusal::Refusal;
use ask_tables::{FAULT_WORDS, cell};
use sim_lend::Network;
use sim_outcome::{Outcome, done, found, refused, valued};
use sim_printer::Printer;
use sim_script::{Change, Passage};

// A rule that went, with how often it fired, or that was gone.
fn removed(page: &mut Printer, answer: Result<Option<u64>, Refusal>) -> Outcome {
    found(
        page,
        b"remove",
        b"remove 1 fired=",
        b"remove 0 fired=-\n",
        answer,
    )
}

// What the rules say, and the words of the fault stream behind it.
fn decided(page: &mut Printer, answer: Result<bool, Refusal>, words: u64) -> Outcome {
    match answer {
        Ok(drops) => {
            let said = if drops { "drop" } else { "pass" };
            page.text(b"decide ");
            page.text(said.as_bytes());
            page.ended(b" words=", words);
            Outcome::Done
        }
        Err(refusal) => refused(page, b"decide", refusal),
    }
}

// The rule of a drop card comes into force.
pub fn install(network: Network<'_>, card: &[u8], page: &mut Printer) -> Outcome {
    let Network {
        setup,
        net,
        rules,
        ..
    } = network;
    let answer = call_rule::install(setup, net, rules, card);
    valued(page, b"install", b"install id=", answer)
}

// The calls on tills and rules.
pub fn change(network: Network<'_>, change: Change, page: &mut Printer) -> Outcome {
    let Network {
        setup,
        net,
        tills,
        seen,
        rules,
        ..
    } = network;
    match change {
        Change::Down { till } => {
            let answer = call_till::take_down(setup, tills, seen, till);
            done(page, b"down", answer)
        }
        Change::Up { till, shards } => {
            let answer = call_till::bring_up(setup, tills, till, shards);
            done(page, b"up", answer)
        }
        Change::Handlers { till, gossip, host } => {
            let answer = call_till::set_handlers(setup, tills, till, gossip, host);
            done(page, b"handlers", answer)
        }
        Change::Remove { rule } => {
            let answer = call_rule::remove(setup, net, rules, rule);
            removed(page, answer)
        }
        Change::Decide {
            from,
            to,
            kind,
            tier,
            at,
        } => {
            let answer = call_rule::decide(setup, net, rules, from, to, kind, tier, at);
            decided(page, answer, cell(net, FAULT_WORDS))
        }
    }
}

// The calls on what may pass from till to till.
pub fn passage(network: Network<'_>, passage: Passage, page: &mut Printer) -> Outcome {
    let Network {
        setup,
        net,
        blocks,
        ..
    } = network;
    match passage {
        Passage::Block { from, to } => {
            let answer = call_block::block(setup, net, blocks, from, to);
            done(page, b"block", answer)
        }
        Passage::BlockDuring {
            from,
            to,
            start,
            end,
        } => {
            let answer = call_block::block_during(setup, net, blocks, from, to, start, end);
            done(page, b"blockd", answer)
        }
        Passage::Unblock { from, to } => {
            let answer = call_block::unblock(setup, net, blocks, from, to);
            done(page, b"unblock", answer)
        }
    }
}
