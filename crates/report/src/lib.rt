// The report's bytes, part by part: numbers, diagnostics, a column of wires, how often each interface is come to, and the head.
#![tactic(auto)]

pub mod bytes;
pub mod column;
pub mod diag;
pub mod head;
