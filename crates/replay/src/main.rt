// Replays calls whose answers were recorded from the published Rust: oracle/record made both files.
#![tactic(auto)]

fn main(rt: HostRuntime) {
    console::trace(&rt);
}
