// Vine's vir.rs: the numbers, kinds, headers, steps and ports of an intermediate representation. Lists stand in tables, so a
// case here holds what is left of it without them.
#![tactic(auto)]

pub mod arity;
pub mod consumer;
pub mod header;
pub mod ids;
pub mod interface;
pub mod invocation;
pub mod port;
pub mod step;
pub mod unknown;
