// What a packet enters first: its list of pieces, and the tip that gathers bytes in memory; and the refusals
// that a writer over them gives.
#![tactic(auto)]

pub mod error;
pub mod pieces;
pub mod tip;
