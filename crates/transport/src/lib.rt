// The formats of Bulk-Only Transport that both ends share: command blocks, status blocks, commands and the capacity reply.
#![tactic(auto)]

mod blocks;
mod capacity;
mod commands;
mod fields;
mod promises;
mod refusals;
mod statuses;
mod toggles;

pub use blocks::{CommandBlock, DataDirection};
pub use capacity::{capacity_reply, read_capacity};
pub use commands::Command;
pub use promises::{
    every_command_fits_a_block, only_built_command_blocks_are_accepted,
    only_built_status_blocks_are_accepted, reading_a_built_capacity_returns_the_size,
    reading_a_built_command_block_returns_it, reading_a_built_command_returns_it,
    reading_a_built_status_block_returns_it, the_worked_cases_come_out,
};
pub use refusals::TransportRefusal;
pub use statuses::{Status, StatusBlock};
pub use toggles::Toggles;
