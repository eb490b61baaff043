// analyzer.rs: process_local and analyze, in lent tables.
#![tactic(auto)]

pub mod cross;
pub mod enter;
pub mod solve_local;
