// What the words of a text stand for: words between blanks, numbers, and bytes.
#![tactic(auto)]

pub mod bytes;
pub mod numbers;
pub mod words;
