// What a run of a script carries from line to line: the reading of standard input, a line's words, the opening, the clock of a long run.
#![tactic(auto)]

pub mod input;
pub mod lines;
pub mod opens;
pub mod progress;
pub mod system;
pub mod turns;
