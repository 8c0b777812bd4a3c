// The program `simulate` again, run on every script of scenarios with its checklist: args names them, data has them, and stdout has the
// answers of the original Rust and the sheets of a count of its own. README.md says more.
#![tactic(auto)]

// The runs that the words ask for.
fn main(rt: HostRuntime) {
    sim_run::words(&rt);
}
