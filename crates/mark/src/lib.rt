// Points 9, 10, 11: the mark of a prune's record on p, its push and pop, and the node noted.
// No public function asks anything of its caller.
#![tactic(auto, unfolding(tables::specs::Choice::pick, tables::specs::Choice::both))]

ghost use Rattle.std.specs.Prelude.{◌≡◌, false, not, ◌<◌, ◌+◌, ◌*◌, ◌-◌, ltb, eqb, set, Ok};
ghost use Rattle.tables.specs.Choice.{both, either};
ghost use Rattle.tables.specs.Layout.{stack_at};
ghost use Rattle.nodes.specs.Pending.{pending_of, pending_good};
ghost use Rattle.process.specs.Answer.{going_on};
ghost use Rattle.process.specs.Process.{with_depth};
ghost use Rattle.help.specs.Touch.{out, row_done};
ghost use Rattle.help.specs.Help.{help_ended};
ghost use Rattle.mark.specs.Parts.{pushed, marked_or_pushed, note_done};
ghost use Rattle.mark.specs.Rows.{under_top, pop_good, notes_kin, other_with, noted as noted_of, row10, row11, prune_marked};

use nodes::node::Kin;
use nodes::pending::Pending;
use nodes::{node, pending};
use process::{Process, Stepped};
use tables::header::Header;
use tables::numbers::Refusal;
use tables::{numbers, words};

// "Else push the record and help what was seen."
#[tactic(auto, unfolding(tables::specs::Choice::pick, crate::specs::Parts::pushed))]
fn push(block: &mut [u32], h: Header, n: u32, q: Process, word: u32) -> Result<Stepped, Refusal>
    ensures { out result block.new ≡ pushed block.old h n q word }
{
    if q.depth < u32::from(h.depth()) {
        words::put_at(block, h.stack_at(n, q.depth), q.helped);
        let deeper = q.with_depth(q.depth + 1);
        Ok(help::helping(q.helped, deeper, Pending::from(word)))
    } else {
        Err(Refusal::Damaged)
    }
}

// "Success, or already that mark: 11."
#[tactic(auto, unfolding(tables::specs::Choice::pick, crate::specs::Parts::marked_or_pushed))]
fn mark_or_push(
    block: &mut [u32],
    h: Header,
    n: u32,
    q: Process,
    p: u32,
    expected: u32,
    word: u32,
) -> Result<Stepped, Refusal>
    requires { 4 * q.helped + 3 < 4294967296 }
    ensures { out result block.new ≡ marked_or_pushed block.old h n q p expected word }
{
    let mark = 4 * q.helped + 3;
    if word == expected {
        words::put_at(block, h.pending_at(p), mark);
        Ok(q.to_eleven(q.helped).goes_on())
    } else if word == mark {
        Ok(q.to_eleven(q.helped).goes_on())
    } else {
        push(block, h, n, q, word)
    }
}

// 9. Swap p's pending from the expected word to mark with this record. A number that no word has room for in a mark is damage.
#[tactic(auto, unfolding(tables::specs::Choice::pick, tables::specs::Choice::both, help::specs::Touch::row_done, crate::specs::Rows::row9, crate::specs::Rows::prune_marked, crate::specs::Parts::pushed, crate::specs::Parts::marked_or_pushed))]
pub fn point_9(block: &mut [u32], h: Header, n: u32, q: Process) -> Result<Stepped, Refusal>
    ensures { out result block.new ≡ prune_marked block.old h n q }
{
    if 4294967296 <= 4 * u64::from(q.helped) + 3 {
        return Err(Refusal::Damaged);
    }
    let p = help::helped_p(block, h, q);
    let expected = h.record_word(block, q.helped, numbers::EXPECTED_FIELD);
    let word = h.pending_word(block, p);
    if help::seen_good(block, h, word) {
        mark_or_push(block, h, n, q, p, expected, word)
    } else {
        Err(Refusal::Damaged)
    }
}

// The record under the stack's top.
fn under_top(block: &[u32], h: Header, n: u32, q: Process) -> u32
    ensures { result ≡ under_top block.now h n q }
{
    h.stack_word(block, n, q.depth.saturating_sub(2))
}

// The top that is popped is a prune, and so is the record under it, if any.
fn pop_good(block: &[u32], h: Header, n: u32, q: Process, under: u32) -> bool
    ensures { result ≡ pop_good block.now h n q under }
{
    let top = help::top_of(block, h, n, q);
    pending::record_of_kind(block, h, top, pending::PRUNE_KIND)
        && help::top_good(block, h, q.depth.saturating_sub(1), under)
}

fn pop_sound(block: &[u32], h: Header, n: u32, q: Process, word: u32, under: u32) -> bool
    ensures { result ≡ both (pending_good block.now h (pending_of word)) (pop_good block.now h n q under) }
{
    help::seen_good(block, h, word) && pop_good(block, h, n, q, under)
}

// "A pop sets its stack word to 0."
fn pop(block: &mut [u32], h: Header, n: u32, depth: u32)
    ensures { block.new ≡ set block.old (stack_at h n (depth - 1)) 0 }
{
    words::put_at(block, h.stack_at(n, depth.saturating_sub(1)), 0);
}

// 10 done: on to the record under the top, or a restart.
fn popped(q: Process, under: u32) -> Stepped
    ensures { result ≡ help_ended false under (with_depth q (q.depth - 1)) }
{
    help::help_ended(false, under, q.with_depth(q.depth.saturating_sub(1)))
}

// 10. Swap gp's pending from this prune to clean with its number; pop.
#[tactic(auto, unfolding(tables::specs::Choice::pick, tables::specs::Choice::both, help::specs::Touch::row_done, crate::specs::Rows::row10))]
pub fn point_10(block: &mut [u32], h: Header, n: u32, q: Process) -> Result<Stepped, Refusal>
    ensures { out result block.new ≡ row_done block.old (row10 block.old h n q) }
{
    let gp = help::helped_third(block, h, q);
    let word = h.pending_word(block, gp);
    let under = under_top(block, h, n, q);
    if pop_sound(block, h, n, q, word, under) {
        help::clear_flag(block, h, gp, word, q.helped, pending::PRUNE_KIND);
        pop(block, h, n, q.depth);
        Ok(popped(q, under))
    } else {
        Err(Refusal::Damaged)
    }
}

// A non-empty child that isn't l.
fn notes(block: &[u32], h: Header, q: Process, seen: u32, kin: Kin) -> bool
    ensures { result ≡ notes_kin block.now h q seen kin }
{
    help::non_empty(kin) && seen != help::helped_l(block, h, q)
}

fn other_with(q: Process, seen: u32, noting: bool) -> u32
    ensures { result ≡ other_with q seen noting }
{
    if noting { seen } else { q.other }
}

// Never a second one noted.
fn first_noted(q: Process, noting: bool) -> bool
    ensures { result ≡ either (not noting) (eqb q.other 0) }
{
    !noting || q.other == 0
}

// One noted at the end.
fn last_noted(h: Header, q: Process, other: u32) -> bool
    ensures { result ≡ either (ltb q.index h.k) (not (eqb other 0)) }
{
    q.index < u32::from(h.k) || other != 0
}

fn noted(h: Header, q: Process, other: u32) -> Process
    ensures { going_on result ≡ noted_of h q other }
{
    let with = q.with_other(other);
    if q.index < u32::from(h.k) {
        with.with_index(q.index + 1)
    } else {
        with.to_twelve()
    }
}

fn note(h: Header, q: Process, seen: u32, noting: bool) -> Result<Stepped, Refusal>
    ensures { result ≡ note_done h q seen noting }
{
    let other = other_with(q, seen, noting);
    if first_noted(q, noting) && last_noted(h, q, other) {
        Ok(noted(h, q, other).goes_on())
    } else {
        Err(Refusal::Damaged)
    }
}

// 11. Read child i of p, all k in turn, noting the non-empty child that isn't l. After child k: 12.
#[tactic(auto, using(help::proofs::Rowed::below_is), unfolding(tables::specs::Choice::pick, tables::specs::Choice::both, help::specs::Touch::row_done, crate::specs::Rows::row11))]
pub fn point_11(block: &[u32], h: Header, q: Process) -> Result<Stepped, Refusal>
    ensures { out result block.now ≡ row_done block.now (row11 block.now h q) }
{
    let p = help::helped_p(block, h, q);
    let seen = h.child_word(block, p, q.index);
    let Some(kin) = node::below_of(block, h, p, seen) else {
        return Err(Refusal::Damaged);
    };
    let noting = notes(block, h, q, seen, kin);
    note(h, q, seen, noting)
}
