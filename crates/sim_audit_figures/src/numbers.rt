// The numbers of an answer's words.
use sim_spelling::numbers::decimal;
use sim_spelling::words::words_of;

// The number that digits stand for; 0 where there is none.
pub fn value(digits: &[u8]) -> u64 {
    decimal(digits).unwrap_or(0)
}

// What stands behind the `=` of a word.
pub fn behind_sign(word: &[u8]) -> Option<&[u8]> {
    word.iter()
        .position(|b| *b == b'=')
        .map(|sign| &word[sign + 1..])
}

// The k-th word of a line, the first being word 0; empty behind the last.
pub fn word_at(line: &[u8], k: usize) -> &[u8] {
    words_of(line).nth(k).unwrap_or(b"")
}

// The number of the k-th word.
pub fn field(line: &[u8], k: usize) -> u64 {
    let word = word_at(line, k);
    value(behind_sign(word).unwrap_or(word))
}
