// Seven rounds of BLAKE3, inlined one behind the other: only a loop over lanes whose body holds no call and no loop
// becomes vector code (1.5 GB/s against 0.65), so there is no loop over the rounds.
ghost use Rattle.std.specs.Prelude.{◌≡◌};
ghost use Rattle.hash_compress.specs.Compress.{round_of, rounds};
ghost use Rattle.math_word.specs.Words.{list_of};
ghost use Rattle.hash_lanes.specs.Rows.{flat};

use crate::rows::{Rows, half_columns, rows_of, to_columns, to_diagonals, words_of};
use hash_compress::permute;
use math_word::Words;

// One round: the four columns, then the four diagonals.
#[inline(always)]
fn round(v: Rows, m: Words) -> Rows
    ensures { flat result ≡ round_of (flat v) (list_of m) }
{
    let p = half_columns(v, m.w0, m.w2, m.w4, m.w6, 16, 12);
    let q = half_columns(p, m.w1, m.w3, m.w5, m.w7, 8, 7);
    let r = half_columns(to_diagonals(q), m.w8, m.w10, m.w12, m.w14, 16, 12);
    let s = half_columns(r, m.w9, m.w11, m.w13, m.w15, 8, 7);
    to_columns(s)
}

// Seven rounds, the message permuted between them.
pub fn seven_rounds(v: Words, m: Words) -> Words
    ensures { list_of result ≡ rounds 7 (list_of v) (list_of m) }
{
    let v1 = round(rows_of(v), m);
    let m1 = permute(m);
    let v2 = round(v1, m1);
    let m2 = permute(m1);
    let v3 = round(v2, m2);
    let m3 = permute(m2);
    let v4 = round(v3, m3);
    let m4 = permute(m3);
    let v5 = round(v4, m4);
    let m5 = permute(m4);
    let v6 = round(v5, m5);
    words_of(round(v6, permute(m5)))
}
