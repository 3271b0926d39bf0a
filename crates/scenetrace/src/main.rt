// Runs a script of any calls.
#![tactic(auto)]

fn main(rt: HostRuntime) {
    console::trace(&rt);
}
