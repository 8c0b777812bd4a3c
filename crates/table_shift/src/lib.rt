// Words that move within a table.
#![tactic(auto)]

ghost use Rattle.std.specs.Prelude.{◌≡◌, ◌+◌, ◌≤◌, length};
ghost use Rattle.table_shift.specs.Shift.{opened, closed};

// The first n words move up by BY places, the last one first. LLVM makes a memmove of it, as BY is a constant; of `copy_within` it makes none here, and filling a queue of 1,260 takes
// 1,048 ns a row in place of 712. `n` stands beside `ws`: the words go into the BY places behind the first n.
fn lift<const BY: usize>(ws: &mut [u64], n: usize)
    requires { n + BY ≤ length ws.old }
    ensures { ws.new ≡ opened ws.old 0 n BY }
{
    for k in (0..n).rev() {
        ws[k + BY] = ws[k];
    }
}

// `from ≤ to`, here and below: two ends of a part, as `copy_within` asks of its range.
// The words from..to move up by BY places, a constant.
pub fn move_up_by<const BY: usize>(ws: &mut [u64], from: usize, to: usize)
    requires { (from ≤ to) × (to + BY ≤ length ws.old) }
    ensures { ws.new ≡ opened ws.old from to BY }
{
    lift::<BY>(&mut ws[from..], to - from);
}

// The words from..to move up by `by` places.
pub fn move_up(ws: &mut [u64], from: usize, to: usize, by: usize)
    requires { (from ≤ to) × (to + by ≤ length ws.old) }
    ensures { ws.new ≡ opened ws.old from to by }
{
    ws.copy_within(from..to, from + by);
}

// The words from..to move down by `by` places. By none nothing moves: `copy_within` would store each word where it stands, one by one.
pub fn move_down(ws: &mut [u64], from: usize, to: usize, by: usize)
    requires { (by ≤ from) × (from ≤ to) × (to ≤ length ws.old) }
    ensures { ws.new ≡ closed ws.old from to by }
{
    if by == 0 {
        return;
    }
    ws.copy_within(from..to, from - by);
}
