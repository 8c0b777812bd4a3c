// Nothing runs here: the crate holds document 01's marked lines as one table with one theorem.
#![tactic(auto)]

// Answers what it is given: a crate has to have a function.
pub fn nothing(x: u64) -> u64 {
    x
}
