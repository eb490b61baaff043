// Whether each record of an image keeps its rule.
#![tactic(auto)]

pub mod faults;
