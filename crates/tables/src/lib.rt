// The block of document 01, "Tables": its numbers and limits, header, addresses and words.
// The block is an arena of numbers and not a tree of boxes: document 01 lays its words out ("Tables"), and nothing here allocates.
// Every public function is total: it asks nothing of its caller and states its result, and every lent word, on every input.
#![tactic(auto, unfolding(crate::specs::Choice::pick, crate::specs::Choice::both))]

pub mod header;
pub mod numbers;
pub mod words;
