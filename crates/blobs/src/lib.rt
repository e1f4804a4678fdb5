// The blobs that a recorder can stand on.
#![tactic(auto)]

pub mod flat;
