// Drawing at 4 and 5: the new nodes and the new record, in the next free numbers, and the flag. Nothing is written where there is no room.
#![tactic(auto, unfolding(tables::specs::Choice::pick, tables::specs::Choice::both))]

ghost use Rattle.std.specs.Prelude.{◌≡◌, ◌+◌, ◌≤◌};
ghost use Rattle.draws.specs.Draw.{puts_in, new_node, new_record, room_for, sprouts, needed_nodes, new_keys, new_count, largest, leaves_from, sprout_leaves, nodes_drawn, record_drawn, committed, draw_out, replace_of, prune_of};

use nodes::{keys, node, pending};
use std::array;
use tables::header::Header;
use tables::numbers::KEY_ROOM;
use tables::{numbers, words};

// What a new record says of its maker and its place: the process, its operation and key, p and l.
#[derive(Clone, Copy)]
pub struct Job {
    pub process: u32,
    pub operation: u32,
    pub key: u32,
    pub p: u32,
    pub l: u32,
}

// All that a new record says: its kind, third and expected pending, and the job. The kind is the number that its word holds (`record_image`).
#[derive(Clone, Copy)]
struct Record {
    kind: u32,
    third: u32,
    expected: u32,
    job: Job,
    ghost one_of_two: { kind ≤ 2 },
}

// The next free numbers.
fn new_node(h: Header) -> u32
    ensures { result ≡ new_node h }
{
    u32::from(h.nodesused) + 1
}

fn new_record(h: Header) -> u32
    ensures { result ≡ new_record h }
{
    u32::from(h.recordsused) + 1
}

// The number of an insert, `process::INSERT`, of a crate that this one does not stand on.
fn puts_in(operation: u32) -> bool
    ensures { result ≡ puts_in operation }
{
    operation == 2
}

// A record is left, and the nodes used plus those needed do not pass the limit.
pub fn room_for(h: Header, needed: u32) -> bool
    ensures { result ≡ room_for h needed }
{
    h.recordsused < h.records && u64::from(h.nodesused) + u64::from(needed) <= u64::from(h.nodes)
}

fn sprouts(h: Header, operation: u32, count: u8) -> bool
    ensures { result ≡ sprouts h operation count }
{
    puts_in(operation) && u32::from(count) + 1 == u32::from(h.k)
}

pub fn needed_nodes(h: Header, operation: u32, count: u8) -> u32
    ensures { result ≡ needed_nodes h operation count }
{
    if sprouts(h, operation, count) {
        u32::from(h.k) + 1
    } else {
        1
    }
}

fn new_keys(block: &[u32], h: Header, j: Job, count: u8) -> [u32; KEY_ROOM]
    ensures { result ≡ new_keys block.now h j count }
{
    if puts_in(j.operation) {
        keys::with_key(block, h, j.l, count, j.key)
    } else {
        keys::without_key(block, h, j.l, count, j.key)
    }
}

// The tag of a simple insert's or delete's leaf. A damaged leaf without keys has none to lose.
fn new_count(operation: u32, count: u8) -> u16
    ensures { result ≡ new_count operation count }
{
    if puts_in(operation) {
        u16::from(count) + 1
    } else {
        u16::from(count.saturating_sub(1))
    }
}

// "an internal node with the k−1 largest keys": ascending, they are all but the first.
fn largest(keys: [u32; KEY_ROOM]) -> [u32; KEY_ROOM]
    ensures { result ≡ largest keys }
{
    array::from_fn(|i| keys.get(i + 1).copied().unwrap_or(0))
}

// "k new leaves of one key each, ascending", in the numbers behind the internal node's.
#[tactic(auto, using(crate::proofs::Laws::leaf_more), unfolding(tables::specs::Choice::listed, crate::specs::Draw::leaves_from))]
fn draw_leaves(block: &mut [u32], h: Header, keys: [u32; KEY_ROOM])
    ensures { block.new ≡ leaves_from block.old h (new_node h + 1) (sprout_leaves h keys) }
{
    let leaves = keys::sprout(keys, h.k);
    let first = new_node(h) + 1;
    for i in 0..u32::from(h.k) {
        let leaf = leaves.get(i as usize).copied().unwrap_or([0; KEY_ROOM]);
        node::write_leaf(block, h, first + i, 1, leaf);
    }
}

// A sprout is an internal node with the k−1 largest keys, "its pending clean with that record", then its leaves; else there is one leaf.
fn draw_nodes(block: &mut [u32], h: Header, j: Job, count: u8)
    requires { h.nodesused + needed_nodes h j.operation count ≤ 65535 }
    ensures { block.new ≡ nodes_drawn block.old h j count }
{
    let node = new_node(h);
    let keys = new_keys(block, h, j, count);
    if sprouts(h, j.operation, count) {
        let clean = 4 * new_record(h);
        node::write_internal(block, h, node, largest(keys), h.nodesused + 2, clean);
        draw_leaves(block, h, keys);
    } else {
        let tag = new_count(j.operation, count);
        node::write_leaf(block, h, node, tag, keys);
    }
}

// The new record: what is to be done where, and for whom.
#[tactic(auto, using(crate::proofs::Laws::word_more))]
fn write_record(block: &mut [u32], h: Header, r: Record)
    ensures { block.new ≡ record_drawn block.old h r.kind r.third r.expected r.job }
{
    let number = new_record(h);
    let j = r.job;
    let fields = [
        r.kind,
        j.l,
        j.p,
        r.third,
        r.expected,
        j.process,
        j.operation,
        j.key,
    ];
    for (i, word) in fields.iter().enumerate() {
        words::put_at(block, h.record_at(number, i as u32), *word);
    }
}

// The record, both used counts, and the flag on a node's pending.
#[tactic(auto, unfolding(crate::specs::Draw::committed))]
fn commit(block: &mut [u32], h: Header, r: Record, needed: u32, flagged: u32)
    requires { h.nodesused + needed ≤ 65535 }
    ensures { block.new ≡ committed block.old h r.kind r.third r.expected needed r.job flagged }
{
    write_record(block, h, r);
    let number = new_record(h);
    words::put_at(
        block,
        numbers::NODES_USED_AT,
        u32::from(h.nodesused) + needed,
    );
    words::put_at(block, numbers::RECORDS_USED_AT, number);
    words::put_at(block, h.pending_at(flagged), 4 * number + r.kind);
}

// A draw for a replace on p, where l is a leaf of so many keys. Says whether there was room.
#[tactic(auto, unfolding(tables::specs::Choice::pick, tables::specs::Choice::both, crate::specs::Draw::replace_drawn))]
pub fn draw_replace(block: &mut [u32], h: Header, j: Job, count: u8) -> bool
    ensures { draw_out result block.new ≡ replace_of block.old h j count }
{
    let needed = needed_nodes(h, j.operation, count);
    let room = room_for(h, needed);
    if room {
        draw_nodes(block, h, j, count);
        let r = Record {
            kind: pending::REPLACE_KIND,
            third: new_node(h),
            expected: 0,
            job: j,
        };
        commit(block, h, r, needed, j.p);
    }
    room
}

// A draw for a prune on gp. "Prune draws no node."
#[tactic(auto, unfolding(tables::specs::Choice::pick, crate::specs::Draw::prune_drawn))]
pub fn draw_prune(block: &mut [u32], h: Header, j: Job, gp: u32, expected: u32) -> bool
    ensures { draw_out result block.new ≡ prune_of block.old h j gp expected }
{
    let room = room_for(h, 0);
    if room {
        let r = Record {
            kind: pending::PRUNE_KIND,
            third: gp,
            expected,
            job: j,
        };
        commit(block, h, r, 0, gp);
    }
    room
}
