// Scripts for a scene table: a line is read, run on a table and answered in lines of text. Nothing here reads or writes a file.
#![tactic(auto)]

mod calls;
mod runner;

pub use runner::run_line;
