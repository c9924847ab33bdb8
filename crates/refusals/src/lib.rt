// Refusals: why a command or a query changed nothing. Every layer above names them by this one enum; its numbers are those that hosts read.

#![tactic(auto)]

pub mod refusal;
