// The lines of the bench, to bytes: what is to be printed, and what a script asks for, written into a lent buffer.
#![tactic(auto)]

pub mod lines;
pub mod write;
