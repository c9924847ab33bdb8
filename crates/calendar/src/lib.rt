// The rule book's calendar: when a finished ticket expires.

#![tactic(auto)]

pub mod expiry;
