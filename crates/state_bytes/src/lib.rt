// The state as bytes, for callers who have no State: read from a buffer, and put into one. specs/StateBytes.antt says which byte is what.

#![tactic(auto)]

pub use putting::put_state;
pub use reading::{is_state, no_state, state_of};

mod putting;
mod reading;
