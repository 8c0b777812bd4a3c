// The tables of a simulated network, front parts of tables, to lend, and a text put to the front of a buffer.
#![tactic(auto)]

ghost use Rattle.std.specs.Prelude.{◌≡◌, ◌++◌, ◌-◌, ◌*◌, ◌^◌, min, length, take, drop};

// The tables of a network, and room for the rows and the lists that its calls give out.
#[derive(Drop)]
pub struct Network<'a> {
    pub setup: &'a mut [u64],
    pub net: &'a mut [u64],
    pub names: &'a mut [u8],
    pub tills: &'a mut [u64],
    pub words: &'a mut [u64],
    pub keys: &'a mut [u32],
    pub prices: &'a mut [u64],
    pub seen: &'a mut [u64],
    pub waiting: &'a mut [u64],
    pub rings: &'a mut [u64],
    pub rules: &'a mut [u64],
    pub blocks: &'a mut [u64],
    pub log: &'a mut [u64],
    pub out: &'a mut [u64],
}

// The first n cells, or all where there are fewer.
pub fn front<T>(s: &mut [T], n: usize) -> &mut [T]
    ensures { result.now ≡ take n s.old }
{
    let most = n.min(s.len());
    &mut s[..most]
}

// The first n cells, to read: math_parts' `front`, under a name of its own as the crates above use it beside the `front` that lends to write.
pub fn part<T>(s: &[T], n: usize) -> &[T]
    ensures { result.now ≡ take n s.now }
{
    math_parts::front(s, n)
}

// The first n rows of a width, to read.
pub fn rows<T>(s: &[T], width: usize, n: u64) -> &[T]
    ensures { result.now ≡ take (min (width * n) (2 ^ 64 - 1)) s.now }
{
    part(s, width.saturating_mul(n as usize))
}

// As much of the text as the buffer holds; how many cells.
pub fn copied<T: Copy>(buf: &mut [T], text: &[T]) -> usize
    ensures many { result ≡ min (length text.now) (length buf.old) }
    ensures front { buf.new ≡ take result text.now ++ drop result buf.old }
{
    let n = text.len().min(buf.len());
    buf[..n].copy_from_slice(&text[..n]);
    n
}
