// Runs scenebench on lines that are longer than any call needs.
#![tactic(auto)]

fn main(rt: HostRuntime) {
    console::bench(&rt);
}
