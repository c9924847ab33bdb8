// The settlement of a drawn game: prizes with their cut, stakes and jackpots.

#![tactic(auto)]

mod drawn_game;
mod features;
mod figures;
mod payouts;
mod primary;
pub mod settle;
pub mod shares;
mod ways;
