// The records of an image judged in file order, up to the first that breaks its rule.
#![tactic(auto)]

pub mod judge;
pub mod walk;
