// The readings, the drain and the digest as C functions.
ghost use Rattle.std.specs.Prelude.{◌≡◌};
ghost use Rattle.hash_digest.specs.Blake3.{digest_of};
ghost use Rattle.call_log.specs.Call.{DoesDrain, DoesTally};
ghost use Rattle.call_waiting.specs.Call.{DoesCopies, DoesNextTime, DoesTransit};

use call_log::{Drained, Tallied};
use call_reply::Value;
use call_waiting::Copied;
use hash_digest::Hashed;

// How many copies wait for a till.
#[unsafe(no_mangle)]
pub extern "C" fn gossip_in_transit(setup: &[u64], net: &[u64], waiting: &[u64], t: u64) -> Value
    ensures { DoesTransit
        setup.now net.now waiting.now
        t result }
{
    Value::from(call_waiting::in_transit(setup, net, waiting, t))
}

// The time of the next delivery, if there is one.
#[unsafe(no_mangle)]
pub extern "C" fn gossip_next_time(setup: &[u64], net: &[u64], waiting: &[u64]) -> Value
    ensures { DoesNextTime
        setup.now net.now waiting.now
        result }
{
    Value::from(call_waiting::next_time(setup, net, waiting))
}

// The waiting copies, to the output.
#[unsafe(no_mangle)]
pub extern "C" fn gossip_waiting(
    setup: &[u64],
    net: &[u64],
    waiting: &[u64],
    out: &mut [u64],
) -> Copied
    ensures { DoesCopies
        setup.now net.now waiting.now
        result
        out.old out.new }
{
    Copied::from(call_waiting::waiting_copies(setup, net, waiting, out))
}

// The log's records to the output; the log is then empty.
#[unsafe(no_mangle)]
pub extern "C" fn gossip_drain(setup: &[u64], log: &mut [u64], out: &mut [u64]) -> Drained
    ensures { DoesDrain
        setup.now log.old
        log.new
        result
        out.old out.new }
{
    Drained::from(call_log::drain(setup, log, out))
}

// Deliveries and bytes of a class.
#[unsafe(no_mangle)]
pub extern "C" fn gossip_tally(setup: &[u64], log: &[u64], class: u64) -> Tallied
    ensures { DoesTally
        setup.now log.now
        «class» result }
{
    Tallied::from(call_log::tally_of(setup, log, class))
}

// The digest by itself.
#[unsafe(no_mangle)]
pub extern "C" fn gossip_digest(input: &[u8]) -> Hashed
    ensures { result ≡ digest_of input.now }
{
    Hashed::from(hash_digest::digest(input))
}
