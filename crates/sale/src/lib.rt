// The rule book of sales: kinds, ways, price, and the operand checks of a sale.

#![tactic(auto)]

pub mod check;
pub mod marks;
pub mod price;
pub mod survey;
pub mod terms;
pub mod walk;
pub mod ways;
