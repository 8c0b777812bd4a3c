// The words of a call, as far as a page shows them.
ghost use Rattle.std.specs.Prelude.{◌≡◌, ℕ, ◌≤◌, List, take};

use std::marker::Model;

// Bytes of a call's words that are shown.
pub const SHOWN: usize = 36;

// The first bytes of a call's words.
#[derive(Debug, Drop)]
pub struct Words {
    bytes: [u8; SHOWN],
    length: usize,
}

impl Model for Words {
    ghost Value = { List ℕ };

    ghost view = { λ w. take w.length w.bytes };

    ghost invariant = { λ w. w.length ≤ 36 };
}

impl Words {
    // As many bytes of a text as are shown.
    pub fn of(text: &[u8]) -> Words
        ensures { result ≡ take 36 text.now }
    {
        let length = SHOWN.min(text.len());
        let mut bytes = [0; SHOWN];
        bytes[..length].copy_from_slice(&text[..length]);
        Words { bytes, length }
    }

    // The bytes that are kept.
    pub fn shown(&self) -> &[u8]
        ensures { result.now ≡ self.now }
    {
        &self.bytes[..self.length]
    }
}
