// Field bytes that are read, and field bytes that are written and read back, held against the definitions. This crate has definitions and
// theorems, and no code.

#![tactic(auto)]
