// What an edge of the clock does: bits and bytes in (`receive`), bits out (`send`).

#![tactic(auto)]

pub mod receive;
pub mod send;
