// f64 values from any 64-bit pattern, and the clamp to 0..1.
#![tactic(auto)]

ghost use Rattle.std.specs.Prelude.{◌≡◌};
ghost use Rattle.std.specs.Float.{binary64};
ghost use Rattle.std.specs.Float.Ieee.{of_bits};
ghost use Rattle.math_float.specs.Float.{clamped};

// The float of any 64 bits; a NaN's pattern gives a NaN, of which f64::from_bits would ask that it is none.
pub fn of_any(n: u64) -> f64
    ensures { result ≡ of_bits binary64 n }
{
    if (n & 0x7fff_ffff_ffff_ffff) > 0x7ff0_0000_0000_0000 {
        f64::NAN
    } else {
        f64::from_bits(n)
    }
}

// f64::clamp(0.0, 1.0), under the name of its definition: NaN stays NaN.
#[tactic(auto, unfolding(crate::specs::Float::clamped))]
pub fn clamp01(p: f64) -> f64
    ensures { result ≡ clamped p }
{
    p.clamp(0.0, 1.0)
}
