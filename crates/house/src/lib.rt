// The house: its struct, its live tickets in lent rows, and what is asked of one ticket.

#![tactic(auto)]

pub mod answer;
pub mod rows;
pub mod state;
pub mod ticket;
