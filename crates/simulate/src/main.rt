// Runs scripts of calls on networks, and audits recorded runs: what the words behind the program's name ask for. README.md says more.
#![tactic(auto)]

// An audit where `audit` is the first word, else runs.
fn main(rt: HostRuntime) {
    if sim_audit_run::is_asked(&rt) {
        sim_audit_run::words(&rt);
        return;
    }
    sim_run::words(&rt);
}
