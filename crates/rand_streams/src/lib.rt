// A stream of 32-bit words, read through a cursor that keeps the ChaCha block it last read.
#![tactic(auto)]

mod link;
mod record;

ghost use Rattle.std.specs.Prelude.{◌≡◌, IsTrue, Some, ℕ, ◌+◌, ◌*◌, ◌/◌, ◌%◌, ◌<◌, ◌^◌};
ghost use Rattle.rand_chacha8.specs.Chacha.{word_at, block_of};

pub use link::link_key;
use rand_chacha8::split;
pub use record::draw_at;

// Where a stream stands: its key, the words it has given, and the block it last read.
// `held` is that block's number, where one has been read.
#[derive(Clone, Copy)]
pub struct Cursor {
    pub key: [u32; 8],
    pub count: u64,
    held: Option<u64>,
    block: [u32; 16],
    pub ghost holds: { (n : ℕ) → held ≡ Some n → block ≡ block_of key n },
}

// The number of 64 bits whose halves are low and high.
fn joined(low: u32, high: u32) -> u64
    ensures { result ≡ low + 2 ^ 32 * high }
{
    u64::from(low) + 4294967296 * u64::from(high)
}

impl Cursor {
    ghost use Rattle.rand_streams.specs.Streams.{Moved, word_pair, keeps_block};

    // The cursor of a stream that has given count words.
    pub fn at(key: [u32; 8], count: u64) -> Cursor
        ensures { (result.key ≡ key) × (result.count ≡ count) }
    {
        Cursor {
            key,
            count,
            held: None,
            block: [0; 16],
        }
    }

    // Does it hold the block of its count?
    fn is_loaded(&self) -> bool
        ensures { IsTrue result → keeps_block self.now }
    {
        self.held == Some(split(self.count).block)
    }

    // Reads the block of its count. It stands by itself, so that LLVM inlines the draws around it.
    fn read(&mut self)
        ensures { Moved self.old 0 self.new × keeps_block self.new }
    {
        let n = split(self.count).block;
        self.block = rand_chacha8::block(self.key, n);
        self.held = Some(n);
    }

    // Reads that block where it does not hold it.
    fn load(&mut self)
        ensures { Moved self.old 0 self.new × keeps_block self.new }
    {
        if !self.is_loaded() {
            self.read();
        }
    }

    // The next word.
    pub fn draw32(&mut self) -> u32
        requires { self.old.count < 2 ^ 63 }
        ensures { (result ≡ word_at self.old.key self.old.count) × Moved self.old 1 self.new }
    {
        self.load();
        let i = split(self.count).place;
        let word = self.block[i];
        self.count += 1;
        word
    }

    // One word after the other.
    fn draw_twice(&mut self) -> u64
        requires { self.old.count + 1 < 2 ^ 63 }
        ensures { (result ≡ word_pair self.old.key self.old.count) × Moved self.old 2 self.new }
    {
        let low = self.draw32();
        let high = self.draw32();
        joined(low, high)
    }

    // The next 64 bits: two words, the low one first. Where its block has both, it is asked for once.
    pub fn draw64(&mut self) -> u64
        requires { self.old.count + 1 < 2 ^ 63 }
        ensures { (result ≡ word_pair self.old.key self.old.count) × Moved self.old 2 self.new }
    {
        let i = split(self.count).place;
        if i == 15 {
            return self.draw_twice();
        }
        self.load();
        let value = joined(self.block[i], self.block[i + 1]);
        self.count += 2;
        value
    }
}
