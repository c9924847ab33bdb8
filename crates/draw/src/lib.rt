// The draw: balls, the twentieth, and the end of a game.

#![tactic(auto)]

pub mod ball;
pub mod call_off;
mod game_end;
mod settle;
