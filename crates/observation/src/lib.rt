// What members can see of a scene table. This crate has definitions and theorems, and no code.

#![tactic(auto)]
