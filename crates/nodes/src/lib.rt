// The nodes of document 01, "Tables": pending words, what a node and a child are, a node's words written, keys.
// Every public function is total: it asks nothing of its caller and states its result, and every lent word, on every input.
#![tactic(auto, unfolding(tables::specs::Choice::pick, tables::specs::Choice::both))]

pub mod keys;
pub mod node;
pub mod pending;
