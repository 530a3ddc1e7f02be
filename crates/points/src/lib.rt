// Start and the fourteen points of document 01, by value: one step of one process record on a lent block.
#![tactic(auto, unfolding(tables::specs::Choice::pick, tables::specs::Choice::both))]

mod search;
pub mod start;
pub mod step;
