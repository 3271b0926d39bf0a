// What an image keeps of a scene table. This crate has definitions and theorems, and no code.

#![tactic(auto)]
