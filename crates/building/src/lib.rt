// analyzer.rs: build, the variables and relations of a flat image; and fill_segments, the seeds of one local.
#![tactic(auto)]

pub mod built;
pub mod fill;
