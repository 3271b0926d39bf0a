// The release check: runs scenetrace on samples/fabric_removal.txt.
#![tactic(auto)]

fn main(rt: HostRuntime) {
    console::trace(&rt);
}
