// Marks: ids looked for, added and removed. C lends a whole table, and beside it how many of its words are in use.
ghost use Rattle.std.specs.Prelude.{◌≡◌, [], ◌∷◌};
ghost use Rattle.bench_tables.specs.Answers.{left, has_of, add_of, remove_of};

use crate::{Told, unfit, valued, yes_or_no};

// Does id stand among the first `count` ids?
#[unsafe(no_mangle)]
pub extern "C" fn tables_marks_has(seen: &[u64], count: usize, id: u64) -> Told
    ensures { result ≡ has_of seen.now count id }
{
    if seen.len() < count {
        return unfit();
    }
    yes_or_no(table_marks::has(seen, 0, count, id))
}

// id among the first `count` ids, if it does not stand there; how many there are then.
#[unsafe(no_mangle)]
pub extern "C" fn tables_marks_add(seen: &mut [u64], count: usize, id: u64) -> Told
    ensures { left result (seen.new ∷ []) ≡ add_of seen.old count id }
{
    if seen.len() <= count {
        return unfit();
    }
    if table_marks::has(seen, 0, count, id) {
        return valued(count as u64);
    }
    table_marks::insert(seen, 0, count, id);
    valued(count as u64 + 1)
}

// id goes; how many are left.
#[unsafe(no_mangle)]
pub extern "C" fn tables_marks_remove(seen: &mut [u64], count: usize, id: u64) -> Told
    ensures { left result (seen.new ∷ []) ≡ remove_of seen.old count id }
{
    if seen.len() < count {
        return unfit();
    }
    valued(table_marks::remove(seen, 0, count, id) as u64)
}
