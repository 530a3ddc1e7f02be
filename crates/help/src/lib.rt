// Helping: where a pending value sends a process, how help ends, and what the points of a record being helped share.
// No public function asks anything of its caller.
#![tactic(auto, unfolding(tables::specs::Choice::pick, tables::specs::Choice::both, crate::specs::Help::help_ended))]

ghost use Rattle.std.specs.Prelude.{◌≡◌, ◌+◌, ◌*◌, eqb, set};
ghost use Rattle.tables.specs.Choice.{pick};
ghost use Rattle.tables.specs.Layout.{node_at, pending_place};
ghost use Rattle.nodes.specs.Pending.{pending_of, pending_good};
ghost use Rattle.help.specs.Help.{helped_l, helped_p, helped_third, top_of, help_ended, top_good, help_good};
ghost use Rattle.help.specs.Help.{helping as helping_of};
ghost use Rattle.help.specs.Reads.{non_empty};

use nodes::node::Kin;
use nodes::pending;
use nodes::pending::Pending;
use process::{Answer, Process, Stepped};
use tables::header::Header;
use tables::{numbers, words};

pub fn seen_good(block: &[u32], h: Header, word: u32) -> bool
    ensures { result ≡ pending_good block.now h (pending_of word) }
{
    pending::pending_good(block, h, Pending::from(word))
}

// The record on top of the process's help stack; `mark` reads the one under it.
pub fn top_of(block: &[u32], h: Header, n: u32, q: Process) -> u32
    ensures { result ≡ top_of block.now h n q }
{
    h.stack_word(block, n, q.depth.saturating_sub(1))
}

// Help ends: the top record's point 10, or yes at 8 and 14 if the own record is set, or a restart.
pub fn help_ended(last: bool, top: u32, q: Process) -> Stepped
    ensures { result ≡ help_ended last top q }
{
    if q.depth != 0 {
        q.to_ten(top).goes_on()
    } else if last && q.own != 0 {
        q.ends(Answer::Yes)
    } else {
        q.restarted().goes_on()
    }
}

pub fn helping(top: u32, q: Process, seen: Pending) -> Stepped
    ensures { result ≡ helping_of top q seen }
{
    match seen {
        Pending::Clean(_) => help_ended(false, top, q),
        Pending::Replace(number) => q.to_six(number).goes_on(),
        Pending::Prune(number) => q.to_nine(number).goes_on(),
        Pending::Mark(number) => q.to_eleven(number).goes_on(),
    }
}

// A stack top that is made the record helped is a prune.
pub fn top_good(block: &[u32], h: Header, depth: u32, top: u32) -> bool
    ensures { result ≡ top_good block.now h depth top }
{
    depth == 0 || pending::record_of_kind(block, h, top, pending::PRUNE_KIND)
}

pub fn help_good(block: &[u32], h: Header, depth: u32, top: u32, seen: Pending) -> bool
    ensures { result ≡ help_good block.now h depth top seen }
{
    !process::is_clean(seen) || top_good(block, h, depth, top)
}

// "internal or holding a key"
pub fn non_empty(kin: Kin) -> bool
    ensures { result ≡ non_empty kin }
{
    !matches!(kin, Kin::Leaf(_, 0))
}

// One function of the field's number would be `record_word` once more.
// Of the record being helped: l, p, and the third, which is the new child or gp.
pub fn helped_l(block: &[u32], h: Header, q: Process) -> u32
    ensures { result ≡ helped_l block.now h q }
{
    h.record_word(block, q.helped, numbers::L_FIELD)
}

pub fn helped_p(block: &[u32], h: Header, q: Process) -> u32
    ensures { result ≡ helped_p block.now h q }
{
    h.record_word(block, q.helped, numbers::P_FIELD)
}

pub fn helped_third(block: &[u32], h: Header, q: Process) -> u32
    ensures { result ≡ helped_third block.now h q }
{
    h.record_word(block, q.helped, numbers::THIRD_FIELD)
}

// The swap of a node's pending from a flag of the record helped to clean with its number: a flag without its kind is that.
pub fn clear_flag(block: &mut [u32], h: Header, node: u32, word: u32, helped: u32, kind: u32)
    ensures { block.new ≡ pick (eqb word (4 * helped + kind)) (set block.old (node_at h node (pending_place h.k)) (4 * helped)) block.old }
{
    if u64::from(word) == 4 * u64::from(helped) + u64::from(kind) {
        words::put_at(block, h.pending_at(node), word - kind);
    }
}
