// A draw on a stream that is kept as its key and its count of words.
ghost use Rattle.std.specs.Prelude.{◌≡◌};
ghost use Rattle.rand_streams.specs.Streams.{step_of};

use crate::Cursor;

// The draw at a count below 2^62, which it moves; a stream that has given more stands still and gives 0.
pub fn draw_at(key: [u32; 8], count: &mut u64) -> u64
    ensures { (result ≡ (step_of key count.old).value) × (count.new ≡ (step_of key count.old).count) }
{
    if *count < 4611686018427387904 {
        let mut c = Cursor::at(key, *count);
        *count += 2;
        return c.draw64();
    }
    0
}
