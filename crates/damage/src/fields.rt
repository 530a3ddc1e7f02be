// "A step checks the whole of its process record."
ghost use Rattle.std.specs.Prelude.{◌≡◌, ◌^◌, ltb};
ghost use Rattle.tables.specs.Choice.{within};
ghost use Rattle.nodes.specs.Node.{kin_of, is_internal, is_leaf, is_node};
ghost use Rattle.damage.specs.Fields.{zero_or, point_good, numbers_good, nodes_good, records_good, uses_index, given as given_of, uses_good, process_good};

use nodes::{node, pending};
use process::Process;
use tables::header::Header;
use tables::numbers;

fn point_good(operation: u32, point: u32) -> bool
    ensures { result ≡ point_good operation point }
{
    let inside = 1 <= point && point <= 14;
    if operation == process::FIND {
        inside && point <= 2
    } else if operation == process::INSERT {
        inside && point != 3 && point != 5
    } else {
        inside
    }
}

// A mask below 2^k; no mask of 32 bits reaches 2^32.
#[tactic(auto, using(crate::proofs::Laws::mask_all))]
fn mask_good(k: u8, mask: u32) -> bool
    ensures { result ≡ ltb mask (2 ^ k) }
{
    32 <= k || mask < 1u32 << k
}

fn numbers_good(h: Header, q: Process) -> bool
    ensures { result ≡ numbers_good h q }
{
    1 <= q.operation
        && q.operation <= process::DELETE
        && q.key < numbers::INFINITY
        && point_good(q.operation, q.point)
        && q.index <= u32::from(h.k)
        && mask_good(h.k, q.mask)
        && q.depth <= u32::from(h.depth())
}

// Three tests of one line each: with a closure for the test each would be longer than it is.
// "gp internal"; 0 as long as the search has not gone down once.
fn no_or_internal(block: &[u32], h: Header, node: u32) -> bool
    ensures { result ≡ zero_or node (is_internal (kin_of block.now h node)) }
{
    node == 0 || node::is_internal(node::kin_of(block, h, node))
}

// "l a leaf"; 0 before the search has met one.
fn no_or_leaf(block: &[u32], h: Header, node: u32) -> bool
    ensures { result ≡ zero_or node (is_leaf (kin_of block.now h node)) }
{
    node == 0 || node::is_leaf(node::kin_of(block, h, node))
}

// 0 until row 11 has noted a child.
fn no_or_node(block: &[u32], h: Header, node: u32) -> bool
    ensures { result ≡ zero_or node (is_node (kin_of block.now h node)) }
{
    node == 0 || node::kin_of(block, h, node).is_some()
}

fn nodes_good(block: &[u32], h: Header, q: Process) -> bool
    ensures { result ≡ nodes_good block.now h q }
{
    node::is_internal(node::kin_of(block, h, q.p))
        && no_or_internal(block, h, q.gp)
        && no_or_leaf(block, h, q.l)
        && no_or_node(block, h, q.other)
}

// The records helped and own are 0 until something is helped, or drawn.
fn records_good(block: &[u32], h: Header, q: Process) -> bool
    ensures { result ≡ records_good block.now h q }
{
    pending::pending_good(block, h, q.pseen)
        && pending::pending_good(block, h, q.gseen)
        && q.helped <= u32::from(h.recordsused)
        && q.own <= u32::from(h.recordsused)
}

fn uses_index(point: u32) -> bool
    ensures { result ≡ uses_index point }
{
    point == 3 || 6 <= point && point <= 7 || 11 <= point && point <= 13
}

fn given(used: bool, x: u32) -> bool
    ensures { result ≡ given_of used x }
{
    !used || x != 0
}

// "l at 3 to 5"
fn leaf_given(point: u32, l: u32) -> bool
    ensures { result ≡ given_of (within 3 point 5) l }
{
    given(3 <= point && point <= 5, l)
}

fn uses_good(q: Process) -> bool
    ensures { result ≡ uses_good q }
{
    let point = q.point;
    leaf_given(point, q.l)
        && given(point == 5, q.gp)
        && given(6 <= point, q.helped)
        && given(uses_index(point), q.index)
        && given(point == 13, q.other)
        && given(point == 10, q.depth)
}

pub fn process_good(block: &[u32], h: Header, q: Process) -> bool
    ensures { result ≡ process_good block.now h q }
{
    numbers_good(h, q) && nodes_good(block, h, q) && records_good(block, h, q) && uses_good(q)
}
