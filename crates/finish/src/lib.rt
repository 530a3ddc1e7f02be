// Points 6, 7, 8 and 12, 13, 14: a child looked for and swapped, and the flag put back to clean, for whoever's record it is.
// No public function asks anything of its caller.
#![tactic(auto, unfolding(tables::specs::Choice::pick, tables::specs::Choice::both, help::specs::Touch::row_done, crate::specs::Rows::look_row, crate::specs::Rows::hang_row, crate::specs::Rows::unflag_row, crate::specs::Rows::row6, crate::specs::Rows::row7, crate::specs::Rows::row8, crate::specs::Rows::row12, crate::specs::Rows::row13, crate::specs::Rows::row14))]

ghost use Rattle.std.specs.Prelude.{◌≡◌, true, eqb, set};
ghost use Rattle.tables.specs.Choice.{pick, both};
ghost use Rattle.nodes.specs.Pending.{pending_of, pending_good};
ghost use Rattle.process.specs.Answer.{going_on};
ghost use Rattle.help.specs.Touch.{out, row_done};
ghost use Rattle.help.specs.Help.{top_of, help_ended, top_good};
ghost use Rattle.finish.specs.Rows.{looked_for, look_row, hang_row, unflag_row, row6, row7, row8, row12, row13, row14};

use nodes::{node, pending};
use process::{Process, Stepped};
use tables::header::Header;
use tables::numbers::Refusal;
use tables::words;

fn looked_for(h: Header, q: Process, seen: u32, target: u32, found: u32, missed: u32) -> Process
    ensures { going_on result ≡ looked_for h q seen target found missed }
{
    if seen == target {
        q.with_point(found)
    } else if q.index < u32::from(h.k) {
        q.with_index(q.index + 1)
    } else {
        q.with_point(missed)
    }
}

// Look for a node among the children of another: what the row is asked about, word for word, as in `hang`.
fn look(
    block: &[u32],
    h: Header,
    q: Process,
    parent: u32,
    target: u32,
    found: u32,
    missed: u32,
) -> Result<Stepped, Refusal>
    ensures { out result block.now ≡ row_done block.now (look_row block.now h q parent target found missed) }
{
    let seen = h.child_word(block, parent, q.index);
    let Some(_) = node::below_of(block, h, parent, seen) else {
        return Err(Refusal::Damaged);
    };
    Ok(looked_for(h, q, seen, target, found, missed).goes_on())
}

// The swap of one word, where it was seen as the word to be swapped.
fn swap(block: &mut [u32], at: u64, seen: u32, from: u32, to: u32)
    ensures { block.new ≡ pick (eqb seen from) (set block.old at to) block.old }
{
    if seen == from {
        words::put_at(block, at, to);
    }
}

// Swap that child for a node that stands above the parent.
fn hang(
    block: &mut [u32],
    h: Header,
    q: Process,
    parent: u32,
    from: u32,
    to: u32,
    next: u32,
) -> Result<Stepped, Refusal>
    ensures { out result block.new ≡ row_done block.old (hang_row block.old h q parent from to next) }
{
    let seen = h.child_word(block, parent, q.index);
    if node::below_of(block, h, parent, seen).is_some() && parent < to {
        swap(block, h.child_at(parent, q.index), seen, from, to);
        Ok(q.with_point(next).goes_on())
    } else {
        Err(Refusal::Damaged)
    }
}

// The pending seen is good, and the stack top that help's end may need is a prune.
fn flag_sound(block: &[u32], h: Header, n: u32, q: Process, word: u32) -> bool
    ensures { result ≡ both (pending_good block.now h (pending_of word)) (top_good block.now h q.depth (top_of block.now h n q)) }
{
    let top = help::top_of(block, h, n, q);
    help::seen_good(block, h, word) && help::top_good(block, h, q.depth, top)
}

// Swap a node's pending from this flag to clean with its number; help ends.
fn unflag(
    block: &mut [u32],
    h: Header,
    n: u32,
    q: Process,
    node: u32,
    kind: u32,
) -> Result<Stepped, Refusal>
    ensures { out result block.new ≡ row_done block.old (unflag_row block.old h n q node kind) }
{
    let word = h.pending_word(block, node);
    if flag_sound(block, h, n, q, word) {
        let top = help::top_of(block, h, n, q);
        help::clear_flag(block, h, node, word, q.helped, kind);
        Ok(help::help_ended(true, top, q))
    } else {
        Err(Refusal::Damaged)
    }
}

// 6. Read child i of p. Equal to l: 7. After child k without a match: 8.
pub fn point_6(block: &[u32], h: Header, q: Process) -> Result<Stepped, Refusal>
    ensures { out result block.now ≡ row_done block.now (row6 block.now h q) }
{
    let p = help::helped_p(block, h, q);
    let l = help::helped_l(block, h, q);
    look(block, h, q, p, l, 7, 8)
}

// 7. Swap that child from l to the new child. To 8.
pub fn point_7(block: &mut [u32], h: Header, q: Process) -> Result<Stepped, Refusal>
    ensures { out result block.new ≡ row_done block.old (row7 block.old h q) }
{
    let p = help::helped_p(block, h, q);
    let l = help::helped_l(block, h, q);
    let new = help::helped_third(block, h, q);
    hang(block, h, q, p, l, new, 8)
}

// 8. Swap p's pending from this replace to clean with the same record number. Help ends.
pub fn point_8(block: &mut [u32], h: Header, n: u32, q: Process) -> Result<Stepped, Refusal>
    ensures { out result block.new ≡ row_done block.old (row8 block.old h n q) }
{
    let p = help::helped_p(block, h, q);
    unflag(block, h, n, q, p, pending::REPLACE_KIND)
}

// 12. Read child i of gp, looking for p. Found: 13. None: 14.
pub fn point_12(block: &[u32], h: Header, q: Process) -> Result<Stepped, Refusal>
    ensures { out result block.now ≡ row_done block.now (row12 block.now h q) }
{
    let gp = help::helped_third(block, h, q);
    let p = help::helped_p(block, h, q);
    look(block, h, q, gp, p, 13, 14)
}

// 13. Swap that child from p to the noted node. To 14.
pub fn point_13(block: &mut [u32], h: Header, q: Process) -> Result<Stepped, Refusal>
    ensures { out result block.new ≡ row_done block.old (row13 block.old h q) }
{
    let gp = help::helped_third(block, h, q);
    let p = help::helped_p(block, h, q);
    hang(block, h, q, gp, p, q.other, 14)
}

// 14. Swap gp's pending from this prune to clean with its number. Help ends.
pub fn point_14(block: &mut [u32], h: Header, n: u32, q: Process) -> Result<Stepped, Refusal>
    ensures { out result block.new ≡ row_done block.old (row14 block.old h n q) }
{
    let gp = help::helped_third(block, h, q);
    unflag(block, h, n, q, gp, pending::PRUNE_KIND)
}
