// The header, block length and D, and where each word of the block stands.
ghost use Rattle.std.specs.Prelude.{◌≡◌, ◌+◌, ◌*◌, ◌-◌, ◌<◌, ◌≤◌, Result};
ghost use Rattle.tables.specs.Numbers.{header_words, node_words};
ghost use Rattle.tables.specs.Layout.{depth_of, block_words, records_from, stacks_from, node_at, record_at, stack_at, node_word, tag_word, key_word, child_word, pending_word, record_word, stack_word, child_place, pending_place};
ghost use Rattle.tables.specs.Header.{header_read, header_good, header_from};

use crate::numbers::{Making, Refusal};
use crate::{numbers, words};

// Fields as narrow as their limits allow: every address then fits 64 bits, whatever they hold.
#[derive(Clone, Copy, Debug, PartialEq, Eq)]
pub struct Header {
    pub k: u8,
    pub processes: u8,
    pub nodes: u16,
    pub nodesused: u16,
    pub records: u16,
    pub recordsused: u16,
}

// A product of a number and a small one, with room to spare for the sums of an address.
fn times(a: u32, b: u64) -> u64
    requires { b < 65536 }
    ensures { (result ≡ a * b) × (result ≤ 281474976710656) }
{
    u64::from(a) * b
}

// The block stays a parameter beside the header: starts, listings and ranges are lent it to be read, steps and makings to be written, and one struct around it would be two.
impl Header {
    // The help stack's words for a process: D.
    pub fn depth(self) -> u16
        ensures { result ≡ depth_of self }
    {
        let k = u16::from(self.k);
        if k == 0 {
            0
        } else {
            self.nodes.saturating_sub(2 * k + 1) / k
        }
    }

    // Where a node's words begin.
    fn node_from(self, node: u32) -> u64
        ensures { (result ≡ header_words + (node - 1) * node_words self.k) × (result < 562949953421312) }
    {
        numbers::HEADER_WORDS + times(node.saturating_sub(1), numbers::node_words(self.k))
    }

    pub fn node_at(self, node: u32, offset: u32) -> u64
        ensures { result ≡ node_at self node offset }
    {
        self.node_from(node) + u64::from(offset)
    }

    pub fn child_at(self, node: u32, i: u32) -> u64
        ensures { result ≡ node_at self node (child_place self.k i) }
    {
        let place = u64::from(self.k) + u64::from(i.saturating_sub(1));
        self.node_from(node) + place
    }

    pub fn pending_at(self, node: u32) -> u64
        ensures { result ≡ node_at self node (pending_place self.k) }
    {
        let place = 2 * u64::from(self.k);
        self.node_from(node) + place
    }

    fn records_from(self) -> u64
        ensures { (result ≡ records_from self) × (result < 562949953421312) }
    {
        numbers::HEADER_WORDS + times(u32::from(self.nodes), numbers::node_words(self.k))
    }

    fn stacks_from(self) -> u64
        ensures { (result ≡ stacks_from self) × (result < 1125899906842624) }
    {
        self.records_from() + times(u32::from(self.records), numbers::RECORD_WORDS)
    }

    // The length of a block of this header.
    pub fn block_words(self) -> u64
        ensures { result ≡ block_words self }
    {
        self.stacks_from() + times(u32::from(self.processes), u64::from(self.depth()))
    }

    pub fn record_at(self, number: u32, field: u32) -> u64
        ensures { result ≡ record_at self number field }
    {
        let from = times(number.saturating_sub(1), numbers::RECORD_WORDS);
        self.records_from() + from + u64::from(field)
    }

    pub fn stack_at(self, process: u32, d: u32) -> u64
        ensures { result ≡ stack_at self process d }
    {
        let from = times(process.saturating_sub(1), u64::from(self.depth()));
        self.stacks_from() + from + u64::from(d)
    }

    pub fn node_word(self, block: &[u32], node: u32, offset: u32) -> u32
        ensures { result ≡ node_word block.now self node offset }
    {
        words::word_at(block, self.node_at(node, offset))
    }

    pub fn tag_word(self, block: &[u32], node: u32) -> u32
        ensures { result ≡ tag_word block.now self node }
    {
        self.node_word(block, node, 0)
    }

    pub fn key_word(self, block: &[u32], node: u32, i: u32) -> u32
        ensures { result ≡ key_word block.now self node i }
    {
        self.node_word(block, node, i)
    }

    pub fn child_word(self, block: &[u32], node: u32, i: u32) -> u32
        ensures { result ≡ child_word block.now self node i }
    {
        words::word_at(block, self.child_at(node, i))
    }

    pub fn pending_word(self, block: &[u32], node: u32) -> u32
        ensures { result ≡ pending_word block.now self node }
    {
        words::word_at(block, self.pending_at(node))
    }

    pub fn record_word(self, block: &[u32], number: u32, field: u32) -> u32
        ensures { result ≡ record_word block.now self number field }
    {
        words::word_at(block, self.record_at(number, field))
    }

    pub fn stack_word(self, block: &[u32], process: u32, d: u32) -> u32
        ensures { result ≡ stack_word block.now self process d }
    {
        words::word_at(block, self.stack_at(process, d))
    }
}

// The six words are within their limits.
#[tactic(auto, unfolding(crate::specs::Choice::both, crate::specs::Header::header_good))]
fn header_good(m: Making, nodesused: u32, recordsused: u32) -> bool
    ensures { result ≡ header_good (header_from m.k m.processes m.nodes nodesused m.records recordsused) }
{
    m.numbers_good()
        && numbers::fresh_nodes(m.k) <= u64::from(nodesused)
        && nodesused <= m.nodes
        && recordsused <= m.records
}

// Refusals 2, 3, 2 of the block, in document 01's order.
pub fn read_header(block: &[u32]) -> Result<Header, Refusal>
    ensures { result ≡ header_read block.now }
{
    let [k, processes, nodes, nodesused, records, recordsused, ..] = *block else {
        return Err(Refusal::TooShort);
    };
    let m = Making {
        k,
        processes,
        nodes,
        records,
    };
    if !header_good(m, nodesused, recordsused) {
        return Err(Refusal::Damaged);
    }
    let h = Header {
        k: k as u8,
        processes: processes as u8,
        nodes: nodes as u16,
        nodesused: nodesused as u16,
        records: records as u16,
        recordsused: recordsused as u16,
    };
    if (block.len() as u64) < h.block_words() {
        return Err(Refusal::TooShort);
    }
    Ok(h)
}
