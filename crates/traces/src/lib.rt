// Traces: one record (`trace`), the short ways of the commonest ones (`quick`), and running them (`records`).

#![tactic(auto)]

pub mod quick;
pub mod records;
pub mod trace;
