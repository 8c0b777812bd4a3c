// A chain's rows back into the pool: the later chains' rows move, then the rows are written (M-113).
#![tactic(auto)]

ghost use Rattle.std.specs.Prelude.{◌≡◌, ◌+◌, ◌-◌, ◌≤◌, length, take};
ghost use Rattle.call_pooling.specs.Pooling.{put_back};

// More rows than before. Of the pool's `end` used words the chain had `old`, from `start` on.
pub fn grow(pool: &mut [u64], start: usize, old: usize, end: usize, rows: &[u64])
    requires { (start + old ≤ end) × (old ≤ length rows.now) × (end + (length rows.now - old) ≤ length pool.old) }
    ensures { pool.new ≡ put_back pool.old start old end rows.now }
{
    let by = rows.len() - old;
    table_shift::move_up(pool, start + old, end, by);
    call_keeping::store(rows, pool, start);
}

// No more rows than before.
pub fn shrink(pool: &mut [u64], start: usize, old: usize, end: usize, rows: &[u64])
    requires { (start + old ≤ end) × (length rows.now ≤ old) × (end ≤ length pool.old) }
    ensures { pool.new ≡ put_back pool.old start old end rows.now }
{
    let by = old - rows.len();
    table_shift::move_down(pool, start + old, end, by);
    call_keeping::store(rows, pool, start);
}
