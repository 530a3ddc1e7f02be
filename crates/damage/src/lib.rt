// The damage checks of a step on its process record and on the record being helped. All cost O(1).
#![tactic(auto, unfolding(tables::specs::Choice::pick, tables::specs::Choice::both, crate::specs::Fields::numbers_good, crate::specs::Fields::nodes_good, crate::specs::Fields::records_good, crate::specs::Fields::uses_good, crate::specs::Fields::process_good, crate::specs::Helped::record_good, crate::specs::Helped::helped_good))]

pub mod fields;
pub mod helped;
