// What members can see of a scene table and of the memberships beside it. This crate has definitions and theorems, and no code.

#![tactic(auto)]
