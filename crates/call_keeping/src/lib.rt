// Tables into a memory, one behind the other, and back (M-112).
#![tactic(auto)]

ghost use Rattle.std.specs.Prelude.{◌≡◌, ◌++◌, ◌+◌, ◌≤◌, length, take, drop};
ghost use Rattle.call_keeping.specs.Copied.{stored_at, five, four};

// A table into the memory, from word `at` on.
pub fn store(table: &[u64], memory: &mut [u64], at: usize)
    requires { at + length table.now ≤ length memory.old }
    ensures { memory.new ≡ stored_at memory.old at table.now }
{
    let n = table.len();
    memory[at..at + n].copy_from_slice(table);
}

// A table out of the memory, from word `at` on.
pub fn fetch(memory: &[u64], at: usize, table: &mut [u64])
    requires { at + length table.old ≤ length memory.now }
    ensures { table.new ≡ take (length table.old) (drop at memory.now) }
{
    let n = table.len();
    table.copy_from_slice(&memory[at..at + n]);
}

// The first five of the nine tables, at the memory's front. Each has a line of its own: a struct of them would be made for this one call and taken apart at once, no plainer.
pub fn keep_first(
    net: &[u64],
    tills: &[u64],
    words: &[u64],
    seen: &[u64],
    waiting: &[u64],
    memory: &mut [u64],
) -> usize
    requires { length net.now + length tills.now + length words.now + length seen.now + length waiting.now ≤ length memory.old }
    ensures kept { memory.new ≡ five net.now tills.now words.now seen.now waiting.now ++ drop (length (five net.now tills.now words.now seen.now waiting.now)) memory.old }
    ensures at { result ≡ length net.now + length tills.now + length words.now + length seen.now + length waiting.now }
{
    store(net, memory, 0);
    let a = net.len();
    store(tills, memory, a);
    let b = a + tills.len();
    store(words, memory, b);
    let c = b + words.len();
    store(seen, memory, c);
    let d = c + seen.len();
    store(waiting, memory, d);
    d + waiting.len()
}

// The first five of the nine tables, out of the memory. Each is written by a line of its own: a struct of them would be made for this one call and taken apart at once, no plainer.
pub fn return_first(
    memory: &[u64],
    net: &mut [u64],
    tills: &mut [u64],
    words: &mut [u64],
    seen: &mut [u64],
    waiting: &mut [u64],
) -> usize
    requires { length net.old + length tills.old + length words.old + length seen.old + length waiting.old ≤ length memory.now }
    ensures net { net.new ≡ take (length net.old) memory.now }
    ensures tills { tills.new ≡ take (length tills.old) (drop (length net.old) memory.now) }
    ensures words { words.new ≡ take (length words.old) (drop (length net.old + length tills.old) memory.now) }
    ensures seen { seen.new ≡ take (length seen.old) (drop (length net.old + length tills.old + length words.old) memory.now) }
    ensures waiting { waiting.new ≡ take (length waiting.old) (drop (length net.old + length tills.old + length words.old + length seen.old) memory.now) }
{
    let a = net.len();
    let b = a + tills.len();
    let c = b + words.len();
    let d = c + seen.len();
    let e = d + waiting.len();
    fetch(memory, 0, net);
    fetch(memory, a, tills);
    fetch(memory, b, words);
    fetch(memory, c, seen);
    fetch(memory, d, waiting);
    e
}
