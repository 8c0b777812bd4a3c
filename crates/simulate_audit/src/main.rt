// The program `simulate` over recorded runs: the audit of every recording of `data`.
#![tactic(auto)]

// The audits that the words ask for.
fn main(rt: HostRuntime) {
    sim_audit_run::words(&rt)
}
