// BLAKE3's state as four rows of four words, and a step of G on its four columns side by side.
ghost use Rattle.std.specs.Prelude.{◌≡◌, ◌<◌};
ghost use Rattle.math_word.specs.Words.{list_of};
ghost use Rattle.hash_lanes.specs.Rows.{sums_of, rotated_of, half_rows, diagonals_of, columns_of, flat};

use math_word::{Quad, Words, rotr};

// The rows of a state: words 0 to 3, 4 to 7, 8 to 11, 12 to 15.
#[derive(Clone, Copy)]
pub struct Rows {
    pub a: Quad,
    pub b: Quad,
    pub c: Quad,
    pub d: Quad,
}

// The sums of two rows.
fn sums(x: Quad, y: Quad) -> Quad
    ensures { result ≡ sums_of x y }
{
    Quad {
        a: x.a.wrapping_add(y.a),
        b: x.b.wrapping_add(y.b),
        c: x.c.wrapping_add(y.c),
        d: x.d.wrapping_add(y.d),
    }
}

// The words of x ^ y, rotated right by n.
fn rotated(x: Quad, y: Quad, n: u32) -> Quad
    requires { (0 < n) × (n < 32) }
    ensures { result ≡ rotated_of x y n }
{
    Quad {
        a: rotr(x.a ^ y.a, n),
        b: rotr(x.b ^ y.b, n),
        c: rotr(x.c ^ y.c, n),
        d: rotr(x.d ^ y.d, n),
    }
}

// Half of G on each column i, with the message word xi.
pub fn half_columns(v: Rows, x0: u32, x1: u32, x2: u32, x3: u32, s: u32, t: u32) -> Rows
    requires { ((0 < s) × (s < 32)) × ((0 < t) × (t < 32)) }
    ensures { result ≡ half_rows v (record { a = x0; b = x1; c = x2; d = x3 }) s t }
{
    let x = Quad {
        a: x0,
        b: x1,
        c: x2,
        d: x3,
    };
    let a = sums(sums(v.a, v.b), x);
    let d = rotated(v.d, a, s);
    let c = sums(v.c, d);
    let b = rotated(v.b, c, t);
    Rows { a, b, c, d }
}

// The diagonals as columns.
pub fn to_diagonals(v: Rows) -> Rows
    ensures { result ≡ diagonals_of v }
{
    let a = v.a;
    let b = Quad {
        a: v.b.b,
        b: v.b.c,
        c: v.b.d,
        d: v.b.a,
    };
    let c = Quad {
        a: v.c.c,
        b: v.c.d,
        c: v.c.a,
        d: v.c.b,
    };
    let d = Quad {
        a: v.d.d,
        b: v.d.a,
        c: v.d.b,
        d: v.d.c,
    };
    Rows { a, b, c, d }
}

// The columns again.
pub fn to_columns(v: Rows) -> Rows
    ensures { result ≡ columns_of v }
{
    let a = v.a;
    let b = Quad {
        a: v.b.d,
        b: v.b.a,
        c: v.b.b,
        d: v.b.c,
    };
    let c = Quad {
        a: v.c.c,
        b: v.c.d,
        c: v.c.a,
        d: v.c.b,
    };
    let d = Quad {
        a: v.d.b,
        b: v.d.c,
        c: v.d.d,
        d: v.d.a,
    };
    Rows { a, b, c, d }
}

// The rows of 16 words.
pub fn rows_of(v: Words) -> Rows
    ensures { flat result ≡ list_of v }
{
    let a = Quad {
        a: v.w0,
        b: v.w1,
        c: v.w2,
        d: v.w3,
    };
    let b = Quad {
        a: v.w4,
        b: v.w5,
        c: v.w6,
        d: v.w7,
    };
    let c = Quad {
        a: v.w8,
        b: v.w9,
        c: v.w10,
        d: v.w11,
    };
    let d = Quad {
        a: v.w12,
        b: v.w13,
        c: v.w14,
        d: v.w15,
    };
    Rows { a, b, c, d }
}

// The 16 words of the rows.
pub fn words_of(v: Rows) -> Words
    ensures { list_of result ≡ flat v }
{
    Words {
        w0: v.a.a,
        w1: v.a.b,
        w2: v.a.c,
        w3: v.a.d,
        w4: v.b.a,
        w5: v.b.b,
        w6: v.b.c,
        w7: v.b.d,
        w8: v.c.a,
        w9: v.c.b,
        w10: v.c.c,
        w11: v.c.d,
        w12: v.d.a,
        w13: v.d.b,
        w14: v.d.c,
        w15: v.d.d,
    }
}
