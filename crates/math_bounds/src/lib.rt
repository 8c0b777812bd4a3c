// How far the f64 operations of a latency are off, and that a real range's first draw is below its high end: laws only.
#![tactic(auto)]
