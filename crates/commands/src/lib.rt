// Open and Transfer, and one part for all commands.

#![tactic(auto)]

pub mod command;
pub mod open;
pub mod transfer;
