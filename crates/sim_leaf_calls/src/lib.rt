// The calls of a script that need little of a network: draws, digest and seconds, geography, latencies.
#![tactic(auto)]

mod draw_calls;
mod geography_calls;

pub use draw_calls::{digest, draws, seconds};
pub use geography_calls::{geography, latency, should};
