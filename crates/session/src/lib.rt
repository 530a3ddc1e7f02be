// A session of the bench: what one line does to the block and the row, and what is printed of it. Everything that decides stands here.
#![tactic(auto, unfolding(tables::specs::Choice::pick, tables::specs::Choice::both, crate::specs::Line::first_done, crate::specs::Line::later_done))]

pub mod cut;
pub mod line;
pub mod text;
