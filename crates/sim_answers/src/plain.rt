// A bad line, ids and digests.
use sim_printer::Printer;
use std::fmt;

// A bad line, by its number.
pub fn bad(page: &mut Printer, line: u64) {
    page.ended(b"err ", line);
}

// Digits of an id.
const ID: usize = 16;

// A space and an id.
pub fn id(page: &mut Printer, id: u64) {
    page.text(b" ");
    page.hex(id, ID);
}

// Ids, a space before each.
pub fn ids(page: &mut Printer, ids: &[u64]) {
    for one in ids {
        id(page, *one);
    }
}

// The bytes of eight words, little-endian, two digits each, on any writer. For other callers: the answers go by `hexes`, whose digits the printer's
// clauses give. It stays beside `hexes` because it was public.
#[derive(Drop)]
pub struct Hexes(pub [u32; 8]);

impl fmt::Display for Hexes {
    fn fmt<W: fmt::Write>(&self, f: &mut fmt::Formatter<W>) -> fmt::Result {
        for word in &self.0 {
            let word = word.swap_bytes();
            write!(f, "{word:08x}")?;
        }
        Ok(())
    }
}
