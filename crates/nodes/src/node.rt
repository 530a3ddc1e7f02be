// What a node is by its tag, what a child is, and a node's words written whole.
ghost use Rattle.std.specs.Prelude.{◌≡◌, ◌*◌, ◌<◌, ◌≤◌, Option};
ghost use Rattle.nodes.specs.Node.{kin_of, below_of, child_of, good_tag, image_word, image_child, node_image, leaf_image, internal_image, with_node};
ghost use Rattle.nodes.specs.Node.{is_internal as is_internal_of};
ghost use Rattle.nodes.specs.Node.{is_leaf as is_leaf_of};

use crate::keys;
use tables::header::Header;
use tables::numbers::KEY_ROOM;
use tables::words;

// A leaf with its count of keys, or an internal node.
#[derive(Clone, Copy, Debug, PartialEq, Eq)]
pub enum Kin {
    Leaf(u32, u8),
    Internal(u32),
}

fn node_good(h: Header, node: u32, tag: u32) -> bool
    ensures { result ≡ good_tag h node tag }
{
    1 <= node && node <= u32::from(h.nodesused) && tag <= u32::from(h.k)
}

pub fn kin_of(block: &[u32], h: Header, node: u32) -> Option<Kin>
    ensures { result ≡ kin_of block.now h node }
{
    let tag = h.tag_word(block, node);
    if !node_good(h, node, tag) {
        None
    } else if tag < u32::from(h.k) {
        Some(Kin::Leaf(node, tag as u8))
    } else {
        Some(Kin::Internal(node))
    }
}

pub fn below_of(block: &[u32], h: Header, parent: u32, node: u32) -> Option<Kin>
    ensures { result ≡ below_of block.now h parent node }
{
    if parent < node {
        kin_of(block, h, node)
    } else {
        None
    }
}

pub fn child_of(block: &[u32], h: Header, parent: u32, i: u32) -> Option<Kin>
    ensures { result ≡ child_of block.now h parent i }
{
    below_of(block, h, parent, h.child_word(block, parent, i))
}

// Two tests of one line, each document 01's word for what a field may name.
pub fn is_internal(child: Option<Kin>) -> bool
    ensures { result ≡ is_internal_of child }
{
    matches!(child, Some(Kin::Internal(_)))
}

pub fn is_leaf(child: Option<Kin>) -> bool
    ensures { result ≡ is_leaf_of child }
{
    matches!(child, Some(Kin::Leaf(_, _)))
}

// Child o - k of an internal node whose children are numbered from first on; a leaf has none.
fn image_child(k: u32, tag: u32, first: u16, o: u32) -> u32
    requires { (k ≤ 255) × ((k ≤ o) × (o < 2 * k)) }
    ensures { result ≡ image_child k tag first o }
{
    if tag == k {
        u32::from(first) + (o - k)
    } else {
        0
    }
}

fn image_word(k: u8, tag: u16, keys: [u32; KEY_ROOM], first: u16, pending: u32, o: u32) -> u32
    ensures { result ≡ image_word k tag keys first pending o }
{
    let wide = u32::from(k);
    if o == 0 {
        u32::from(tag)
    } else if o < wide {
        keys::key_in(keys, o - 1)
    } else if o < 2 * wide {
        image_child(wide, u32::from(tag), first, o)
    } else {
        pending
    }
}

fn write_node(
    block: &mut [u32],
    h: Header,
    node: u32,
    tag: u16,
    keys: [u32; KEY_ROOM],
    first: u16,
    pending: u32,
)
    ensures { block.new ≡ with_node block.old h node (node_image h.k tag keys first pending) }
{
    for o in 0..2 * u32::from(h.k) + 1 {
        let word = image_word(h.k, tag, keys, first, pending, o);
        words::put_at(block, h.node_at(node, o), word);
    }
}

// "tag, k−1 keys, k children, pending": a leaf of so many keys, clean.
pub fn write_leaf(block: &mut [u32], h: Header, node: u32, count: u16, keys: [u32; KEY_ROOM])
    ensures { block.new ≡ with_node block.old h node (leaf_image h.k count keys) }
{
    write_node(block, h, node, count, keys, 0, 0);
}

// An internal node with its k−1 keys, and children numbered from first on.
pub fn write_internal(
    block: &mut [u32],
    h: Header,
    node: u32,
    keys: [u32; KEY_ROOM],
    first: u16,
    pending: u32,
)
    ensures { block.new ≡ with_node block.old h node (internal_image h.k keys first pending) }
{
    write_node(block, h, node, u16::from(h.k), keys, first, pending);
}
