// Accept as a line of a script: the call is made on the lent tables, and its answer written.
#![tactic(auto)]

ghost use Rattle.std.specs.Prelude.{◌≡◌};
ghost use Rattle.spec_network.specs.Tables.{cell};
ghost use Rattle.sim_outcome.specs.declared.Outcome.TheVariants.{Accepted};
ghost use Rattle.sim_accept.specs.Accepting.{five_of, IsAccept};

use ask_tables::{LONGEST_KEY, LONGEST_NAME, cell};
use call_accept::{Entry, FixedTables};
use call_schedule::Counts;
use sim_figures::Five;
use sim_lend::Network;
use sim_outcome::{Outcome, refused};
use sim_printer::Printer;
use sim_script::Accept;

// The most bytes of a wire.
const LONGEST_WIRE: usize = ask_tables::LONGEST_WIRE as usize;

// The scope of a global entry, and the types.
const GLOBAL: usize = ask_tables::GLOBAL as usize;

const TYPES: usize = ask_tables::MOST_TYPES as usize;

// The length of the text whose place is given, 0 behind the last.
fn length_at(names: &[u8], i: usize) -> u8
    ensures { result ≡ cell names.now i }
{
    names.get(i).copied().unwrap_or(0)
}

// The id of an entry that was accepted: no question refused its type, its scope, its wire or the names.
fn id(names: &[u8], told: Accept<'_>) -> u64 {
    id_in(names, told.kind as usize, told.scope as usize, told.wire).unwrap_or(0)
}

// The same by its parts; None where one of them is out of range.
fn id_in(names: &[u8], kind: usize, scope: usize, wire: &[u8]) -> Option<u64> {
    if names.len() != ask_rows::NAMES_WIDTH || TYPES <= kind || GLOBAL < scope {
        return None;
    }
    let name = length_at(names, kind * ask_rows::NAME_WIDTH);
    let key = length_at(names, ask_rows::KEYS + scope * ask_rows::SHARD_KEY_WIDTH);
    if LONGEST_NAME < name || LONGEST_KEY < key || LONGEST_WIRE < wire.len() {
        return None;
    }
    Some(call_message::id_of(names, kind, scope, wire))
}

// Digits of an id.
const ID: usize = 16;

// The five counts, the id, and the network's own counts.
fn accepted(page: &mut Printer, counts: Counts, id: u64, net: &[u64]) -> Outcome
    ensures { result ≡ Accepted (five_of counts) }
{
    let Counts {
        sent,
        deduplicated,
        partition,
        loss,
        fault,
    } = counts;
    page.labelled(b"accept sent=", sent);
    page.labelled(b" dedup=", deduplicated);
    page.labelled(b" partition=", partition);
    page.labelled(b" loss=", loss);
    page.labelled(b" fault=", fault);
    page.text(b" id=");
    page.hex(id, ID);
    page.labelled(b" sequence=", cell(net, ask_tables::SEQUENCE));
    page.ended(b" waiting=", cell(net, ask_tables::WAITING));
    Outcome::Accepted(Five {
        sent,
        deduplicated,
        partition,
        loss,
        fault,
    })
}

// Takes an entry. Over 40 lines: twelve fields, and the fields of two structs of the call.
pub fn accept(network: Network<'_>, told: Accept<'_>, page: &mut Printer) -> Outcome
    ensures { IsAccept result }
{
    let Network {
        setup,
        net,
        names,
        tills,
        words,
        keys,
        prices,
        seen,
        waiting,
        rings,
        rules,
        blocks,
        ..
    } = network;
    let fixed = FixedTables {
        setup,
        tills,
        keys,
        prices,
        blocks,
    };
    let entry = Entry {
        wire: told.wire,
        from: told.from,
        at: told.at,
        kind: told.kind,
        class: told.class,
        scope: told.scope,
        tag: told.tag,
    };
    let answer = call_accept::accept(
        fixed, net, names, words, seen, waiting, rings, rules, entry, told.opens,
    );
    match answer {
        Ok(counts) => accepted(page, counts, id(names, told), net),
        Err(refusal) => refused(page, b"accept", refusal),
    }
}
