// Text: the lines that the ledger prints, put into a buffer, and as values that `{}` writes.

#![tactic(auto)]

mod ascii;
pub mod decimal;
pub mod lines;
pub mod records;
