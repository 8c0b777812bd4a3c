// The till calls as C functions.
ghost use Rattle.call_till.specs.Calls.{DoesBringUp, DoesIsDown, DoesMarksOf, DoesSetHandlers, DoesTakeDown};

use call_reply::{Done, Value};
use call_till::Marks;

// A till goes down.
#[unsafe(no_mangle)]
pub extern "C" fn gossip_take_down(
    setup: &[u64],
    tills: &mut [u64],
    seen: &mut [u64],
    t: u64,
) -> Done
    ensures { DoesTakeDown
        setup.now tills.old seen.old
        tills.new seen.new
        t result }
{
    Done::from(call_till::take_down(setup, tills, seen, t))
}

// A till comes up, with the shards given.
#[unsafe(no_mangle)]
pub extern "C" fn gossip_bring_up(setup: &[u64], tills: &mut [u64], t: u64, shards: u64) -> Done
    ensures { DoesBringUp
        setup.now tills.old
        tills.new
        t shards result }
{
    Done::from(call_till::bring_up(setup, tills, t, shards))
}

// The types that a till's gossip and host handlers take.
#[unsafe(no_mangle)]
pub extern "C" fn gossip_set_handlers(
    setup: &[u64],
    tills: &mut [u64],
    t: u64,
    gossip: u64,
    host: u64,
) -> Done
    ensures { DoesSetHandlers
        setup.now tills.old
        tills.new
        t gossip host result }
{
    Done::from(call_till::set_handlers(setup, tills, t, gossip, host))
}

// Is a till down?
#[unsafe(no_mangle)]
pub extern "C" fn gossip_is_down(setup: &[u64], tills: &[u64], t: u64) -> Value
    ensures { DoesIsDown
        setup.now tills.now
        t result }
{
    Value::from(call_till::is_down(setup, tills, t))
}

// The ids that a till has seen, to the output.
#[unsafe(no_mangle)]
pub extern "C" fn gossip_marks(setup: &[u64], seen: &[u64], t: u64, out: &mut [u64]) -> Marks
    ensures { DoesMarksOf
        setup.now seen.now
        t result
        out.old out.new }
{
    Marks::from(call_till::marks_of(setup, seen, t, out))
}
