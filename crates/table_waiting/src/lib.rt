// Waiting copies: rows in the order of time, then sequence. A copy goes in at its place, found from the back; the due ones are a front part.
#![tactic(auto)]

ghost use Rattle.std.specs.Prelude.{◌≡◌, ◌+◌, ◌*◌, ◌≤◌, length, drop, refl};
ghost use Rattle.table_rows.specs.Lists.{front};
ghost use Rattle.table_rows.specs.Table.{over};
ghost use Rattle.table_waiting.specs.Waiting.{width, form, exact, copies, before, place_of, insert_copy, on_time};

use table_delivery::Delivery;
use table_rows::Row;

// How many words a waiting copy has.
pub const WIDTH: usize = table_delivery::WIDTH + 4;

// A copy on its way; `original` is 1 where it has an id, else 0. A row of lent words, which may hold any word: an Option for the id would lose the word when the row is stored again.
#[derive(Clone, Copy)]
pub struct Copy {
    pub delivery: Delivery,
    pub sequence: u64,
    pub original: u64,
    pub id: u64,
    pub tag: u64,
}

impl Row for Copy {
    ghost form = { form };

    ghost WIDTH = { width };

    const WIDTH: usize = WIDTH;

    fn get(ws: &[u64], b: usize) -> Copy {
        Copy {
            delivery: Delivery::get(ws, b),
            sequence: ws[b + 8],
            original: ws[b + 9],
            id: ws[b + 10],
            tag: ws[b + 11],
        }
    }

    fn put(self, ws: &mut [u64], b: usize) {
        self.delivery.put(ws, b);
        ws[b + 8] = self.sequence;
        ws[b + 9] = self.original;
        ws[b + 10] = self.id;
        ws[b + 11] = self.tag;
    }

    ghost exact = { exact };

    ghost wide = { refl };
}

impl Copy {
    // Is it before another, by time, then by sequence?
    #[tactic(auto, unfolding(crate::specs::Waiting::before))]
    fn is_before(self, other: Copy) -> bool
        ensures { result ≡ before self other }
    {
        let early = self.delivery.time;
        let late = other.delivery.time;
        if early < late {
            return true;
        }
        // Two branches: with `&&`, or as tuples, LLVM reads both words of each row, and filling a queue of 4,096 takes 1.5 times as long.
        if early == late {
            return self.sequence < other.sequence;
        }
        false
    }
}

// `n` and `n * width ≤ length ws`, here and below: how many rows of the lent table are in use; its end is free, and a row more goes there.
// The place of c among n rows, found from the back: behind the last row that it is not before.
fn place(ws: &[u64], n: usize, c: Copy) -> usize
    requires { n * width ≤ length ws.now }
    ensures is { result ≡ place_of c (copies ws.now n) }
    ensures within { result ≤ n }
{
    // By hand, in the shape that LLVM makes a tight loop of: by a generic search from the back, a queue of 4,096 takes 3,826 to 4,467 ns a row to fill in place of 2,584.
    let mut i = n;
    while 0 < i {
        let r = Copy::get(ws, (i - 1) * WIDTH);
        if !c.is_before(r) {
            return i;
        }
        i -= 1;
    }
    0
}

// c among n rows, at its place; those from there on move up in one shift.
pub fn insert(ws: &mut [u64], n: usize, c: Copy)
    requires { (n + 1) * width ≤ length ws.old }
    ensures { ws.new ≡ over form (insert_copy c (copies ws.old n)) ws.old }
{
    let p = place(ws, n, c);
    table_shift::move_up_by::<WIDTH>(ws, p * WIDTH, n * WIDTH);
    c.put(ws, p * WIDTH);
}

// How many rows at the front have a time at or before `until`.
pub fn due(ws: &[u64], n: usize, until: u64) -> usize
    requires { n * width ≤ length ws.now }
    ensures { result ≡ length (front (on_time until) (copies ws.now n)) }
{
    table_rows::passing(ws, n, |c: Copy| c.delivery.time <= until)
}

// The first k of n rows go, the others move down in one shift.
pub fn drop_front(ws: &mut [u64], n: usize, k: usize)
    requires { (k ≤ n) × (n * width ≤ length ws.old) }
    ensures { ws.new ≡ over form (drop k (copies ws.old n)) ws.old }
{
    table_shift::move_down(ws, k * WIDTH, n * WIDTH, k * WIDTH);
}
