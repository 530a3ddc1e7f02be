// The lines of the bench's script, from bytes: a line read as what it asks for.
#![tactic(auto)]

pub mod lines;
pub mod read;
