// Runs scenetrace on images: saved, loaded and refused.
#![tactic(auto)]

fn main(rt: HostRuntime) {
    console::trace(&rt);
}
