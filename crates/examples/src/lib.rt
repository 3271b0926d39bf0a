// Rows of the requirements, held against the definitions. This crate has definitions and theorems, and no code.

#![tactic(auto)]
