// Numbers: decimal, and hexadecimal in either case, of up to 64 bits.
ghost use Rattle.std.specs.Prelude.{◌≡◌, option_and_then};
ghost use Rattle.sim_spelling.specs.Spelling.{digit_of, more_of, number_of, bits_of};

// Digits of the bits of a 64-bit number.
const BITS: usize = 16;

// The scope of a global entry; a shard's is its number, below, and no entry has one above. A number, as the engine's calls take it from C.
const GLOBAL: u64 = 16;

// The value of a digit.
#[tactic(auto, unfolding(crate::specs::Spelling::digit_of))]
pub fn digit(b: u8) -> Option<u8>
    ensures { result ≡ digit_of b }
{
    match b {
        b'0'..=b'9' => Some(b - b'0'),
        b'A'..=b'F' => Some(b - b'A' + 10),
        b'a'..=b'f' => Some(b - b'a' + 10),
        _ => None,
    }
}

// v with the digit b behind it, where that has 64 bits at most.
#[tactic(auto, unfolding(crate::specs::Spelling::more_of))]
fn more(v: u64, b: u8, base: u64) -> Option<u64>
    ensures { result ≡ option_and_then (more_of base v) (digit_of b) }
{
    let d = u64::from(digit(b)?);
    if base <= d {
        return None;
    }
    v.checked_mul(base)?.checked_add(d)
}

// The number that digits of a base stand for.
#[tactic(auto, unfolding(crate::specs::Spelling::digits_of, crate::specs::Spelling::number_of))]
fn of_base(s: &[u8], base: u64) -> Option<u64>
    ensures { result ≡ number_of base s.now }
{
    if s.is_empty() {
        return None;
    }
    let mut v = 0;
    for b in s {
        v = more(v, *b, base)?;
    }
    Some(v)
}

// The number of decimal digits.
pub fn decimal(s: &[u8]) -> Option<u64>
    ensures { result ≡ number_of 10 s.now }
{
    of_base(s, 10)
}

// The number of hexadecimal digits.
pub fn hex(s: &[u8]) -> Option<u64>
    ensures { result ≡ number_of 16 s.now }
{
    of_base(s, 16)
}

// The bits of a number, all 16 digits of them.
#[tactic(auto, unfolding(crate::specs::Spelling::bits_of))]
pub fn bits(s: &[u8]) -> Option<u64>
    ensures { result ≡ bits_of s.now }
{
    if s.len() == BITS {
        return hex(s);
    }
    None
}

// 0 or 1.
pub fn flag(s: &[u8]) -> Option<bool> {
    match decimal(s)? {
        0 => Some(false),
        1 => Some(true),
        _ => None,
    }
}

// `g`, or `s` and a shard's number.
pub fn target(s: &[u8]) -> Option<u64> {
    match s {
        b"g" => Some(GLOBAL),
        [b's', shard @ ..] => {
            let n = decimal(shard)?;
            Some(if n < GLOBAL { n } else { GLOBAL + 1 })
        }
        _ => None,
    }
}
