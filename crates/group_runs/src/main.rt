// Runs scenetrace on memberships: joining, leaving, asking, and every letter that takes one.
#![tactic(auto)]

fn main(rt: HostRuntime) {
    console::trace(&rt);
}
