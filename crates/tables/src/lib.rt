// The tables that every rule reads: devices, instructions with their codes, cycles. Each look-up answers the rules' own row.

#![tactic(auto)]

mod cycles;
mod devices;
mod instructions;

pub use cycles::changes;
pub use devices::{
    device, first_protected, has_a8, has_identification, is_device, page_count, row_of,
};
pub use instructions::{decode, facts};
