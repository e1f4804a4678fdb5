// The buffered writer: packets are gathered in a tip and passed on to a blob.
#![tactic(auto)]

mod boxes;
pub mod sync_state;
pub mod write;
