// The image of document 01 as a value, its kind, its layer rules, and the answer for each code.
#![tactic(auto)]

pub mod accepted;
pub mod answer;
pub mod check;
pub mod entering;
pub mod kind;
pub mod layer_rules;
pub mod layered;
pub mod listers;
pub mod tally;
