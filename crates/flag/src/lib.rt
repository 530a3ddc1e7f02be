// Points 4 and 5: the flag of a new record on p's pending, or on gp's, and what is drawn for it.
// No public function asks anything of its caller.
#![tactic(auto, unfolding(tables::specs::Choice::pick, tables::specs::Choice::both))]

ghost use Rattle.std.specs.Prelude.{◌≡◌, ◌<◌, Result};
ghost use Rattle.nodes.specs.Pending.{word_of};
ghost use Rattle.help.specs.Touch.{out, row_done};
ghost use Rattle.flag.specs.Parts.{seen_helped, flagged_p, flagged_leaf, flagged_gp};
ghost use Rattle.flag.specs.Rows.{held_good, leaf_good4, job_of, row4, prune_flagged};

use draws::Job;
use nodes::node::Kin;
use nodes::pending::Pending;
use nodes::{keys, node};
use process::{Answer, Process, Stepped};
use tables::header::Header;
use tables::numbers::Refusal;

fn job_of(n: u32, q: Process) -> Job
    ensures { result ≡ job_of n q }
{
    Job {
        process: n,
        operation: q.operation,
        key: q.key,
        p: q.p,
        l: q.l,
    }
}

// "Else help what was seen", where its stack top, if that is needed, is a prune.
fn help_seen(block: &[u32], h: Header, n: u32, q: Process, word: u32) -> Result<Stepped, Refusal>
    ensures { result ≡ seen_helped block.now h n q word }
{
    let top = help::top_of(block, h, n, q);
    let seen = Pending::from(word);
    if help::help_good(block, h, q.depth, top, seen) {
        Ok(help::helping(top, q, seen))
    } else {
        Err(Refusal::Damaged)
    }
}

// At 4 an l that lacks an insert's key and holds a delete's.
fn held_good(operation: u32, held: bool) -> bool
    ensures { result ≡ held_good operation held }
{
    if operation == process::INSERT {
        !held
    } else {
        held
    }
}

fn leaf_good(block: &[u32], h: Header, q: Process, kin: Kin) -> bool
    ensures { result ≡ leaf_good4 block.now h q kin }
{
    match kin {
        Kin::Leaf(l, count) => {
            keys::rises(block, h, l, count)
                && held_good(q.operation, keys::holds(block, h, l, count, q.key))
        }
        Kin::Internal(_) => false,
    }
}

// The compare of 4, with a leaf of so many keys: equal, draw; else help what was seen.
// The own record, drawn, is helped at once: a replace at 6. Without room the operation ends full.
#[tactic(auto, unfolding(tables::specs::Choice::pick, crate::specs::Parts::flagged_p))]
fn flag_p(
    block: &mut [u32],
    h: Header,
    n: u32,
    q: Process,
    count: u8,
    word: u32,
) -> Result<Stepped, Refusal>
    ensures { out result block.new ≡ flagged_p block.old h n q count word }
{
    if u64::from(word) != u64::from(q.pseen) {
        help_seen(block, h, n, q, word)
    } else if draws::draw_replace(block, h, job_of(n, q), count) {
        let number = u32::from(h.recordsused) + 1;
        let own = q.with_own(number);
        Ok(own.to_six(number).goes_on())
    } else {
        Ok(q.ends(Answer::Full))
    }
}

// The same of 5: a prune is helped at 9.
#[tactic(auto, unfolding(tables::specs::Choice::pick, crate::specs::Parts::flagged_gp))]
fn flag_gp(block: &mut [u32], h: Header, n: u32, q: Process, word: u32) -> Result<Stepped, Refusal>
    requires { word_of q.pseen < 4294967296 }
    ensures { out result block.new ≡ flagged_gp block.old h n q word }
{
    if u64::from(word) != u64::from(q.gseen) {
        return help_seen(block, h, n, q, word);
    }
    let expected = u64::from(q.pseen) as u32;
    if draws::draw_prune(block, h, job_of(n, q), q.gp, expected) {
        let number = u32::from(h.recordsused) + 1;
        Ok(q.with_own(number).to_nine(number).goes_on())
    } else {
        Ok(q.ends(Answer::Full))
    }
}

// 4 with p's pending word: its leaf and that word are checked before anything is written.
fn flag_leaf(
    block: &mut [u32],
    h: Header,
    n: u32,
    q: Process,
    kin: Kin,
    word: u32,
) -> Result<Stepped, Refusal>
    ensures { out result block.new ≡ flagged_leaf block.old h n q kin word }
{
    let sound = leaf_good(block, h, q, kin) && help::seen_good(block, h, word);
    match kin {
        Kin::Leaf(_, count) if sound => flag_p(block, h, n, q, count, word),
        Kin::Leaf(_, _) | Kin::Internal(_) => Err(Refusal::Damaged),
    }
}

// 4. Compare-and-swap p's pending, from the value read to replace with a new record.
#[tactic(auto, unfolding(tables::specs::Choice::pick, tables::specs::Choice::both, help::specs::Touch::row_done, crate::specs::Rows::row4))]
pub fn point_4(block: &mut [u32], h: Header, n: u32, q: Process) -> Result<Stepped, Refusal>
    ensures { out result block.new ≡ row_done block.old (row4 block.old h n q) }
{
    let Some(kin) = node::kin_of(block, h, q.l) else {
        return Err(Refusal::Damaged);
    };
    let word = h.pending_word(block, q.p);
    flag_leaf(block, h, n, q, kin, word)
}

// 5. The same on gp's pending, with prune. The prune's expected word is p's pending as it was read, and must fit a word.
#[tactic(auto, unfolding(tables::specs::Choice::pick, tables::specs::Choice::both, help::specs::Touch::row_done, crate::specs::Rows::row5, crate::specs::Rows::prune_flagged))]
pub fn point_5(block: &mut [u32], h: Header, n: u32, q: Process) -> Result<Stepped, Refusal>
    ensures { out result block.new ≡ prune_flagged block.old h n q }
{
    if 4294967296 <= u64::from(q.pseen) {
        return Err(Refusal::Damaged);
    }
    let word = h.pending_word(block, q.gp);
    if help::seen_good(block, h, word) {
        flag_gp(block, h, n, q, word)
    } else {
        Err(Refusal::Damaged)
    }
}
