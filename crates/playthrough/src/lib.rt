// A run of play from end to end, and its answer on a chip's room: on the files that are named, with what is said of them.

#![tactic(auto)]

mod replacing;
pub mod room;
pub mod run;
pub mod say;
