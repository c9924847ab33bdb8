// Rolls of commands: decoding, answer records and the reader.

#![tactic(auto)]

pub mod decode;
pub mod reader;
pub mod record;
pub mod stop;
