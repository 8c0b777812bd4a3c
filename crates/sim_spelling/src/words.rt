// Words of a text: bytes between blanks.
ghost use Rattle.std.specs.Prelude.{◌≡◌, not, position, length};
ghost use Rattle.std.specs.Iterator.{YieldsFirstRef, at_most};
ghost use Rattle.sim_spelling.specs.Spelling.{part_of, blank, words_in, skipped};

// The bytes a..e, or none where there is no such part.
#[tactic(auto, unfolding(crate::specs::Spelling::part_of))]
pub fn part(s: &[u8], a: usize, e: usize) -> &[u8]
    ensures { result.now ≡ part_of s.now a e }
{
    s.get(a..e).unwrap_or(&[])
}

// Space, tab and carriage return.
#[tactic(auto, unfolding(crate::specs::Spelling::blank))]
fn is_blank(b: u8) -> bool
    ensures { result ≡ blank b }
{
    matches!(b, b' ' | b'\t' | b'\r')
}

// Where the first word of a text begins.
fn word_start(text: &[u8]) -> Option<usize>
    ensures { result ≡ position (λ b. not (blank b)) text.now }
{
    text.iter().position(|b| !is_blank(*b))
}

// Where the word that a text begins with ends, if not with the text.
fn word_end(text: &[u8]) -> Option<usize>
    ensures { result ≡ position blank text.now }
{
    text.iter().position(|b| is_blank(*b))
}

// The words that a text has left.
#[derive(Clone, Copy)]
pub struct Words<'a> {
    rest: &'a [u8],
}

// The words of a text, one after the other.
pub fn words_of(text: &[u8]) -> Words<'_>
    ensures { result.rest.now ≡ text.now }
{
    Words { rest: text }
}

impl<'a> Iterator for Words<'a> {
    type Item = &'a [u8];

    ghost next_gives = { YieldsFirstRef (λ s. words_in s.rest.now) };

    ghost remaining = { λ s. at_most (length s.rest.now) };

    // The next word; the rest begins behind it.
    fn next(&mut self) -> Option<&'a [u8]> {
        let start = word_start(self.rest)?;
        let (_, text) = self.rest.split_at(start);
        let (word, rest) = text.split_at(word_end(text).unwrap_or(text.len()));
        self.rest = rest;
        Some(word)
    }
}

// Is a line blank, or a remark?
pub fn is_skipped(s: &[u8]) -> bool
    ensures { result ≡ skipped (words_in s.now) }
{
    matches!(words_of(s).next(), None | Some([b'#', ..]))
}
