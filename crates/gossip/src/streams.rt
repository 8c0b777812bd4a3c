// A stream record that is lent by `&mut`, and the draw that moves it (document 01: "A draw moves the stream it is lent"), as a C function. It is no call
// of the network: the lender is a C or Rust program with a stream of its own.
ghost use Rattle.std.specs.Prelude.{◌≡◌};
ghost use Rattle.rand_streams.specs.Streams.{step_of};

// Eight little-endian words of key, and how many words the stream has given.
#[repr(C)]
#[derive(Clone, Copy)]
pub struct Stream {
    pub key: [u32; 8],
    pub count: u64,
}

// The next 64-bit draw of the stream that is lent: it is taken apart, the draw is made at its count, and the new count is stored.
#[unsafe(no_mangle)]
pub extern "C" fn gossip_next_u64(s: &mut Stream) -> u64
    ensures { (result ≡ (step_of s.old.key s.old.count).value)
        × (s.new.count ≡ (step_of s.old.key s.old.count).count)
        × (s.new.key ≡ s.old.key) }
{
    rand_streams::draw_at(s.key, &mut s.count)
}
