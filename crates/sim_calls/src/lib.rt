// The calls of a script on tills, blocks, rules and readings, on the lent tables of a network: each is made, and its answer written.
#![tactic(auto)]

mod engine_calls;
mod hooks;
mod readings;

pub use engine_calls::{change, install, passage};
pub use hooks::hook;
pub use readings::{single, state, table};
