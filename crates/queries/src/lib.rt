// What is read off a house: the till, the pools and the live list.

#![tactic(auto)]

pub mod live_list;
pub mod till;
