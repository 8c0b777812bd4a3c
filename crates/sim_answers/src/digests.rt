// Digests, on a line of answers. `Hexes` in `plain` is the same as a value that can be displayed on any writer.
use sim_printer::Printer;

// Digits of a word.
const WORD: usize = 8;

// The bytes of eight words, little-endian, two digits each.
pub fn hexes(page: &mut Printer, words: [u32; 8]) {
    for word in words {
        page.hex(u64::from(word.swap_bytes()), WORD);
    }
}

#[cfg(test)]
mod tests {
    use super::*;
    use crate::plain::Hexes;

    // Both forms write the least byte of a word first, two digits each.
    #[test]
    fn eight_words_in_digits(rt: HostRuntime) {
        let words: [u32; 8] = [
            0x0403_0201,
            0,
            1,
            0xffff_ffff,
            0x8000_0000,
            16,
            256,
            0xab_cdef,
        ];
        let digits = b"010203040000000001000000ffffffff000000801000000000010000efcdab00";
        let mut buf = [0u8; 80];
        let mut page = Printer::new(&mut buf);
        page.print(Hexes(words));
        assert_eq!(rt; page.as_slice(), digits.as_slice());
        page.clear();
        hexes(&mut page, words);
        assert_eq!(rt; page.as_slice(), digits.as_slice());
    }
}
