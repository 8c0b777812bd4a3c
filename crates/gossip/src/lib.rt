// The network as C functions: each call takes and writes the lent tables, and is proved equal to its definition in `spec_network`.
#![tactic(auto)]

mod accepting;
mod engine;
mod flushing;
mod opens;
mod readings;
mod streams;
mod tills;
