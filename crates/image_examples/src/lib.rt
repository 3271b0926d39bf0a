// Images that are loaded and saved, held against the definitions. This crate has definitions and theorems, and no code.

#![tactic(auto)]
