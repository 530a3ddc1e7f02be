// Points 1 to 3: the way down, the leaf, and the count of p's non-empty children.
ghost use Rattle.std.specs.Prelude.{◌≡◌, not, ◌≤◌, eqb, Ok, Err};
ghost use Rattle.tables.specs.Choice.{pick, both};
ghost use Rattle.tables.specs.Refusal.{refusal};
ghost use Rattle.nodes.specs.Keys.{keys_of, rises};
ghost use Rattle.help.specs.Touch.{out, row_done};
ghost use Rattle.points.specs.Rows.{insert_at, delete_at, find_at, at_leaf, at_child, leaf_good2, mask_with, point_after3, scanned3, row1, row2, row3};

use nodes::node::Kin;
use nodes::pending::Pending;
use nodes::{keys, node, pending};
use process::{Answer, Process, Stepped};
use tables::header::Header;
use tables::numbers::Refusal;

// 1. Read p's pending. To 2.
#[tactic(auto, unfolding(tables::specs::Choice::pick, help::specs::Touch::row_done, crate::specs::Rows::row1))]
pub fn point_1(block: &[u32], h: Header, q: Process) -> Result<Stepped, Refusal>
    ensures { out result block.now ≡ row_done block.now (row1 block.now h q) }
{
    let seen = Pending::from(h.pending_word(block, q.p));
    if pending::pending_good(block, h, seen) {
        Ok(q.with_pseen(seen).with_point(2).goes_on())
    } else {
        Err(Refusal::Damaged)
    }
}

fn find_at(q: Process, held: bool) -> Stepped
    ensures { result ≡ find_at q held }
{
    q.ends(if held { Answer::Yes } else { Answer::No })
}

fn insert_at(q: Process, held: bool) -> Stepped
    ensures { result ≡ insert_at q held }
{
    if held {
        q.ends(Answer::No)
    } else if process::is_clean(q.pseen) {
        q.with_point(4).goes_on()
    } else {
        help::helping(0, q, q.pseen)
    }
}

fn delete_at(q: Process, held: bool) -> Stepped
    ensures { result ≡ delete_at q held }
{
    if !held {
        q.ends(Answer::No)
    } else if !process::is_clean(q.gseen) {
        help::helping(0, q, q.gseen)
    } else if !process::is_clean(q.pseen) {
        help::helping(0, q, q.pseen)
    } else {
        q.to_three().goes_on()
    }
}

fn at_leaf(q: Process, held: bool) -> Stepped
    ensures { result ≡ at_leaf q held }
{
    if q.operation == process::FIND {
        find_at(q, held)
    } else if q.operation == process::INSERT {
        insert_at(q, held)
    } else {
        delete_at(q, held)
    }
}

// A leaf of a search: not straight below node 1, its keys in order.
fn leaf_good(block: &[u32], h: Header, p: u32, l: u32, count: u8) -> bool
    ensures { result ≡ both (not (eqb p 1)) (rises (keys_of block.now h l count)) }
{
    p != 1 && keys::rises(block, h, l, count)
}

fn at_child(block: &[u32], h: Header, q: Process, kin: Kin) -> Result<Stepped, Refusal>
    ensures { result ≡ pick (leaf_good2 block.now h q kin) (Ok (at_child block.now h q kin)) (Err (refusal 3)) }
{
    match kin {
        Kin::Leaf(l, count) => {
            if !leaf_good(block, h, q.p, l, count) {
                return Err(Refusal::Damaged);
            }
            let held = keys::holds(block, h, l, count, q.key);
            Ok(at_leaf(q.with_l(l), held))
        }
        Kin::Internal(child) => Ok(q.descended(child).with_point(1).goes_on()),
    }
}

// 2. Read the child of p for the key.
#[tactic(auto, using(help::proofs::Rowed::below_is), unfolding(tables::specs::Choice::pick, tables::specs::Choice::both, help::specs::Touch::row_done, crate::specs::Rows::row2))]
pub fn point_2(block: &[u32], h: Header, q: Process) -> Result<Stepped, Refusal>
    ensures { out result block.now ≡ row_done block.now (row2 block.now h q) }
{
    let i = keys::route(block, h, q.p, q.key);
    let Some(kin) = node::child_of(block, h, q.p, i) else {
        return Err(Refusal::Damaged);
    };
    at_child(block, h, q, kin)
}

// "Child i is bit i−1 of the mask."
fn mask_with(q: Process, kin: Kin) -> u32
    requires { q.index ≤ 8 }
    ensures { result ≡ mask_with q kin }
{
    if help::non_empty(kin) {
        q.mask | 1u32 << q.index.saturating_sub(1)
    } else {
        q.mask
    }
}

// "if the count of ones in its mask is 2 and l holds one key, 5; else 4"
fn point_after(block: &[u32], h: Header, q: Process, mask: u32) -> u32
    ensures { result ≡ point_after3 block.now h q mask }
{
    if mask.count_ones() == 2 && h.tag_word(block, q.l) == 1 {
        5
    } else {
        4
    }
}

fn scanned(block: &[u32], h: Header, q: Process, mask: u32) -> Stepped
    ensures { result ≡ scanned3 block.now h q mask }
{
    let with = q.with_mask(mask);
    if q.index < u32::from(h.k) {
        with.with_index(q.index + 1).goes_on()
    } else {
        with.with_point(point_after(block, h, q, mask)).goes_on()
    }
}

// 3. Read child i of p; set its bit in the mask if internal or holding a key.
#[tactic(auto, using(help::proofs::Rowed::below_is), unfolding(tables::specs::Choice::pick, tables::specs::Choice::both, help::specs::Touch::row_done, crate::specs::Rows::row3))]
pub fn point_3(block: &[u32], h: Header, q: Process) -> Result<Stepped, Refusal>
    requires { q.index ≤ 8 }
    ensures { out result block.now ≡ row_done block.now (row3 block.now h q) }
{
    let Some(kin) = node::child_of(block, h, q.p, q.index) else {
        return Err(Refusal::Damaged);
    };
    let mask = mask_with(q, kin);
    Ok(scanned(block, h, q, mask))
}
