// Accept: the public call.
#![tactic(auto)]

ghost use Rattle.std.specs.Prelude.{◌≡◌};
ghost use Rattle.spec_network.specs.Calls.{accept as accept_call};
ghost use Rattle.call_accept.specs.Accepting.{entry_in, accepted_reply, DoesAccept};

use ask_refusal::Refusal;
pub use call_offer::FixedTables;
use call_offer::Outgoing;
use call_schedule::Counts;

// An accept as C gets it: the number of the question that refused the call, or 0, and how many recipients went under each of the five.
#[repr(C)]
#[derive(Clone, Copy, Default)]
pub struct Accepted {
    pub number: u64,
    pub sent: u64,
    pub deduplicated: u64,
    pub partition: u64,
    pub loss: u64,
    pub fault: u64,
}

impl From<Result<Counts, Refusal>> for Accepted {
    ghost from_gives = { λ r a. a ≡ accepted_reply r };

    // C gets a number, 0 where no question refused; a refusal answers zeros.
    fn from(outcome: Result<Counts, Refusal>) -> Accepted {
        match outcome {
            Ok(counts) => Accepted {
                number: 0,
                sent: counts.sent,
                deduplicated: counts.deduplicated,
                partition: counts.partition,
                loss: counts.loss,
                fault: counts.fault,
            },
            Err(refusal) => Accepted {
                number: refusal.number(),
                ..Accepted::default()
            },
        }
    }
}

// An entry of a till's outbox: what it says, from which till and when.
#[derive(Clone, Copy)]
pub struct Entry<'a> {
    pub wire: &'a [u8],
    pub from: u64,
    pub at: u64,
    pub kind: u64,
    pub class: u64,
    pub scope: u64,
    pub tag: u64,
}

// A message goes out to its recipients. A payload that does not open changes nothing.
// The written tables stay parameters: `call_offer::FixedTables` says why.
pub fn accept(
    fixed: FixedTables,
    net: &mut [u64],
    names: &[u8],
    words: &mut [u64],
    seen: &mut [u64],
    waiting: &mut [u64],
    rings: &mut [u64],
    rules: &mut [u64],
    given: Entry,
    opens: bool,
) -> Result<Counts, Refusal>
    ensures { DoesAccept
        fixed.entry.setup.now net.old names.now fixed.entry.tills.now words.old fixed.entry.keys.now fixed.entry.prices.now seen.old waiting.old rings.old rules.old fixed.entry.blocks.now
        net.new words.new seen.new waiting.new rings.new rules.new
        (accept_call (entry_in given.entry) opens) (accepted_reply result) }
{
    if !ask_accept::lent(fixed, net, names, words, seen, waiting, rings, rules) {
        return Err(Refusal::Tables);
    }
    let setup = fixed.setup;
    let (from, at, wire) = (given.from, given.at, given.wire.len() as u64);
    ask_accept::arguments(setup, from, given.kind, given.class, given.scope, wire, at)?;
    if !opens {
        return Ok(Counts::default());
    }
    let m = Outgoing {
        from,
        now: at,
        kind: given.kind,
        class: given.class,
        scope: given.scope,
        wire,
        id: call_message::id_of(names, given.kind as usize, given.scope as usize, given.wire),
        tag: given.tag,
    };
    ask_accept::tail(fixed, net, words, seen, m)?;
    Ok(call_recipients::serve(fixed, net, words, seen, waiting, rings, rules, m))
}
