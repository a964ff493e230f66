// Writing: what the rise of Chip Select decides (`judge`), and what a wait finishes (`cycle`).

#![tactic(auto)]

pub mod cycle;
pub mod judge;
