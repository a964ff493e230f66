// The stored vectors: how one stands in its bytes, and whether the library gives what it says.
#![tactic(auto)]

pub mod compare;
mod vector;
