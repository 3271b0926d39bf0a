// Runs a script of adds, stores and views.
#![tactic(auto)]

fn main(rt: HostRuntime) {
    console::bench(&rt);
}
