// The keys of the link streams.
ghost use Rattle.std.specs.Prelude.{◌≡◌, ◌+◌, ◌*◌, ◌≤◌, length};
ghost use Rattle.table_shift.specs.Shift.{put_words};
ghost use Rattle.spec_network.specs.Opening.{most_tills};
ghost use Rattle.spec_network.specs.Real.{key_width};
ghost use Rattle.call_open_writes.specs.Written.{link_keys};

// A key's 8 words, from b on.
fn put_key(keys: &mut [u32], b: usize, key: [u32; 8])
    requires { b + key_width ≤ length keys.old }
    ensures { keys.new ≡ put_words keys.old b key }
{
    keys[b..b + key.len()].copy_from_slice(&key);
}

// The key of each ordered pair of n tills. `n ≤ most_tills` bounds the products; question 2 has asked it, and a type for it would be made for this one call.
pub fn write_keys(keys: &mut [u32], seed: u64, n: u64)
    requires { (n ≤ most_tills) × (length keys.old ≡ n * n * key_width) }
    ensures { keys.new ≡ link_keys seed n }
{
    for i in 0..n * n {
        let key = rand_streams::link_key(seed, (i / n) as u32, (i % n) as u32);
        put_key(keys, (i * ask_tables::LINK_KEY_WIDTH) as usize, key);
    }
}
