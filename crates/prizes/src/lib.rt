// The rule book of prizes: schedules, prizes, the cut of major prizes, Lucky Last, and the jackpots.

#![tactic(auto)]

pub mod cut;
pub mod draw;
pub mod found;
pub mod groups;
pub mod jackpot;
pub mod lucky_last;
pub mod majors;
pub mod prize;
pub mod schedule;
