// Numbers: their bytes in a buffer.

#![tactic(auto)]

pub mod bytes;
