// The commands on tickets: Sell, Cancel, Claim, Expire and Collect.

#![tactic(auto)]

pub mod cancel;
pub mod claim;
pub mod collect;
pub mod expire;
pub mod lookup;
pub mod sell;
