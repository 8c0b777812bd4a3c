// Tables filled from the front.
ghost use Rattle.std.specs.Prelude.{◌≡◌, ◌++◌, ◌*◌, ◌≤◌, length, drop, replicate};
ghost use Rattle.table_rows.specs.Rows.{flat};
ghost use Rattle.spec_network.specs.Opening.{links};
ghost use Rattle.spec_network.specs.Live.{open_tills};
ghost use Rattle.spec_network.specs.Tables.{till_form};

// The first n cells at 0; what lies behind stays. Cut at its five calls (`&mut s[..n]`), each caller would join zeros and rest in its own proof: no plainer.
pub fn clear(s: &mut [u64], n: usize)
    requires { n ≤ length s.old }
    ensures { s.new ≡ replicate n 0 ++ drop n s.old }
{
    s[0..n].fill(0);
}

// The word counts of the 64 by 64 ordered pairs of tills: the array of 4,096 that the scope names.
pub fn clear_words(words: &mut [u64])
    requires { length words.old ≡ links }
    ensures { words.new ≡ replicate links 0 }
{
    let zeros = [0u64; 4096];
    words.copy_from_slice(&zeros);
}

// All tills up, a mask of shards for each.
pub fn write_tills(tills: &mut [u64], masks: &[u64])
    requires { length tills.old ≡ length masks.now * till_form.width }
    ensures { tills.new ≡ flat till_form.words (open_tills masks.now (length masks.now)) }
{
    for (t, mask) in masks.iter().enumerate() {
        ask_tables::put_till(tills, t * ask_tables::TILL_WIDTH, 1, 0, 0, *mask);
    }
}
