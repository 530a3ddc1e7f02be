// The keys of a node: the route of a key, a leaf's keys in order, a key put in or taken out, and the leaves of a sprout.
ghost use Rattle.std.specs.Prelude.{◌≡◌, ℕ, Bool, ◌<◌, [], ◌∷◌, get_or};
ghost use Rattle.nodes.specs.Keys.{keys_of, first_at, greater_at, route_of, put_in, taken_out, key_array, sprout_of, sprout_leaf, equal_at, put_in_word, taken_out_word, rises, holds};

use std::array;
use tables::header::Header;
use tables::numbers::{INFINITY, KEY_ROOM};

// Keys are read by number and not lent as a slice: `key_word` promises 0 for a word past the end of the block, where no slice is.
// Block, header, node and count of a leaf go together: a struct around them would be made at each call, from the same four names, and read once.
// Key i of a node's first count keys, from 0; past them, what is given for past.
#[tactic(auto, using(crate::proofs::Keyed::keys_at, crate::proofs::Keyed::keys_past))]
fn key_or(block: &[u32], h: Header, node: u32, count: u8, i: u32, past: u32) -> u32
    ensures { result ≡ get_or (keys_of block.now h node count) i past }
{
    if i < u32::from(count) {
        h.key_word(block, node, i + 1)
    } else {
        past
    }
}

// Each key is below the next, the last below infinity.
pub fn rises(block: &[u32], h: Header, node: u32, count: u8) -> bool
    ensures { result ≡ rises (keys_of block.now h node count) }
{
    (0..u32::from(count)).all(|i| {
        h.key_word(block, node, i + 1) < key_or(block, h, node, count, i + 1, INFINITY)
    })
}

// How many keys stand before the first that passes a test.
fn first_at<F: Fn(u32) -> bool>(block: &[u32], h: Header, node: u32, count: u8, passes: F) -> u32
    requires { F.IsAlwaysCallable passes }
    ensures { (test : ℕ → Bool) → ((x : ℕ) (r : Bool) → F.post passes x r → r ≡ test x) → result ≡ first_at test (keys_of block.now h node count) }
{
    let n = u32::from(count);
    (0..n)
        .find(|i| passes(h.key_word(block, node, *i + 1)))
        .unwrap_or(n)
}

// How many keys stand before the first greater one.
pub fn greater_at(block: &[u32], h: Header, node: u32, count: u8, key: u32) -> u32
    ensures { result ≡ greater_at key (keys_of block.now h node count) }
{
    first_at(block, h, node, count, |k| key < k)
}

// How many keys stand before the first equal one.
fn equal_at(block: &[u32], h: Header, node: u32, count: u8, key: u32) -> u32
    ensures { result ≡ equal_at key (keys_of block.now h node count) }
{
    first_at(block, h, node, count, |k| key == k)
}

#[tactic(auto, using(crate::proofs::Keyed::holds_by))]
pub fn holds(block: &[u32], h: Header, node: u32, count: u8, key: u32) -> bool
    ensures { result ≡ holds key (keys_of block.now h node count) }
{
    equal_at(block, h, node, count, key) < u32::from(count)
}

// The child of a node for a key: the first i with the key below key i, else k.
pub fn route(block: &[u32], h: Header, node: u32, key: u32) -> u32
    ensures { result ≡ route_of block.now h node key }
{
    greater_at(block, h, node, h.k.saturating_sub(1), key) + 1
}

// Key i of the keys with a key put in, where at of them stand before it.
fn put_in_word(block: &[u32], h: Header, node: u32, count: u8, key: u32, at: u32, i: u32) -> u32
    requires { i < KEY_ROOM }
    ensures { result ≡ put_in_word key (keys_of block.now h node count) at i }
{
    if i < at {
        key_or(block, h, node, count, i, 0)
    } else if i == at {
        key
    } else {
        key_or(block, h, node, count, i - 1, 0)
    }
}

// A leaf's keys with a key put in before the first greater one.
pub fn with_key(block: &[u32], h: Header, node: u32, count: u8, key: u32) -> [u32; KEY_ROOM]
    ensures { result ≡ key_array (put_in key (keys_of block.now h node count)) }
{
    let at = greater_at(block, h, node, count, key);
    array::from_fn(|i| put_in_word(block, h, node, count, key, at, i as u32))
}

// Key i of the keys with one taken out, where at of them stand before it.
fn taken_out_word(block: &[u32], h: Header, node: u32, count: u8, at: u32, i: u32) -> u32
    requires { i < KEY_ROOM }
    ensures { result ≡ taken_out_word (keys_of block.now h node count) at i }
{
    if i < at {
        key_or(block, h, node, count, i, 0)
    } else {
        key_or(block, h, node, count, i + 1, 0)
    }
}

// A leaf's keys with a key taken out.
pub fn without_key(block: &[u32], h: Header, node: u32, count: u8, key: u32) -> [u32; KEY_ROOM]
    ensures { result ≡ key_array (taken_out key (keys_of block.now h node count)) }
{
    let at = equal_at(block, h, node, count, key);
    array::from_fn(|i| taken_out_word(block, h, node, count, at, i as u32))
}

// A key array of one key.
#[tactic(auto, unfolding(tables::specs::Choice::listed))]
pub fn one_key(key: u32) -> [u32; KEY_ROOM]
    ensures { result ≡ key_array (key ∷ []) }
{
    [key, 0, 0, 0, 0, 0, 0, 0]
}

// A key of a key array; past its end there is none.
pub fn key_in(keys: [u32; KEY_ROOM], i: u32) -> u32
    ensures { result ≡ get_or keys i 0 }
{
    keys.get(i as usize).copied().unwrap_or(0)
}

// "k new leaves of one key each, ascending": the leaves' key arrays, before their words go into the node table.
// An array of key arrays by value: `sprout_of` is that list, and no heap is used.
#[tactic(auto, unfolding(tables::specs::Choice::pick, tables::specs::Choice::listed))]
pub fn sprout(keys: [u32; KEY_ROOM], count: u8) -> [[u32; KEY_ROOM]; KEY_ROOM]
    ensures { result ≡ sprout_of keys count }
{
    array::from_fn(
        |i|
            requires { i < KEY_ROOM }
            ensures { result ≡ sprout_leaf keys count i }
        {
            if i < usize::from(count) {
                one_key(keys[i])
            } else {
                [0; KEY_ROOM]
            }
        },
    )
}
