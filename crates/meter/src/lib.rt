// The walk over the whole tree, and its measuring pass: how many keys a walk meets, whether one of them lies in a range, and whether all was sound.
// Its public functions ask nothing of their callers.
#![tactic(auto)]

ghost use Rattle.std.specs.Prelude.{◌≡◌, ℕ, Bool, true, false, List, [], ◌++◌};
ghost use Rattle.tables.specs.Choice.{both};
ghost use Rattle.nodes.specs.Keys.{keys_of, rises};
ghost use Rattle.meter.specs.Walk.{met_from, walked};
ghost use Rattle.meter.specs.Measure.{any_within, measure_of, Measured};
ghost use Rattle.meter.specs.Laws.{measured_nothing, measured_behind, measured_one};

use nodes::node::Kin;
use nodes::{keys, node};
use tables::header::Header;

// What a pass over the tree does where the walk meets a leaf, and where it meets damage.
pub trait Pass {
    // The pass before, the keys that are met, in order, whether no damage is met, and the pass after.
    ghost met: { Self → List ℕ → Bool → Self → Type 0 };

    fn leaf(&mut self, block: &[u32], h: Header, node: u32, count: u8)
        ensures { met self.old (keys_of block.now h node count) (rises (keys_of block.now h node count)) self.new };

    fn damage(&mut self)
        ensures { met self.old [] false self.new };

    // A walk that meets nothing, and two walks one behind the other.
    ghost nothing: { (p : Self) → met p [] true p };

    ghost behind: { (p q r : Self) (ks ls : List ℕ) (s t : Bool) → met p ks s q → met q ls t r → met p (ks ++ ls) (both s t) r };

    // What is met leaves one pass after.
    ghost one: { (p q r : Self) (ks : List ℕ) (s : Bool) → met p ks s q → met p ks s r → q ≡ r };

    // The walk down from a node, children in order, ended by the number of nodes still allowed, which it answers.
    final fn walk(&mut self, block: &[u32], h: Header, child: Option<Kin>, allowed: u16) -> u16
        ensures left { result ≡ (met_from block.now h child allowed).allowed }
        ensures met { met self.old (met_from block.now h child allowed).keys (met_from block.now h child allowed).sound self.new }
    {
        if allowed == 0 {
            self.damage();
            return 0;
        }
        let mut left = allowed - 1;
        match child {
            None => self.damage(),
            Some(Kin::Leaf(node, count)) => self.leaf(block, h, node, count),
            Some(Kin::Internal(node)) => {
                for i in 0..u32::from(h.k) {
                    let below = node::child_of(block, h, node, i + 1);
                    left = self.walk(block, h, below, left);
                }
            }
        }
        left
    }
}

// Nodes still allowed, keys met, whether one of them lies in the range, and whether no damage was met.
#[derive(Clone, Copy)]
pub struct Meter {
    pub allowed: u16,
    pub count: u32,
    pub found: bool,
    pub sound: bool,
}

// The measuring pass: the range, keys met, whether one of them lies in it, and whether no damage was met.
#[derive(Clone, Copy)]
struct Tally {
    low: u32,
    high: u32,
    count: u32,
    found: bool,
    sound: bool,
}

impl Pass for Tally {
    ghost met = { Measured };

    ghost nothing = { measured_nothing };

    ghost behind = { measured_behind };

    ghost one = { measured_one };

    fn leaf(&mut self, block: &[u32], h: Header, node: u32, count: u8) {
        self.sound &= keys::rises(block, h, node, count);
        self.found |= leaf_within(block, h, node, count, self.low, self.high);
        // A leaf has a byte of keys at most and a walk 16 bits of nodes: the count never gets so far.
        self.count = self.count.saturating_add(u32::from(count));
    }

    fn damage(&mut self) {
        self.sound = false;
    }
}

// Whether one of a leaf's keys lies from low to high.
fn leaf_within(block: &[u32], h: Header, node: u32, count: u8, low: u32, high: u32) -> bool
    ensures { result ≡ any_within low high (keys_of block.now h node count) }
{
    (0..u32::from(count)).any(|i| {
        let key = h.key_word(block, node, i + 1);
        low <= key && key <= high
    })
}

// The whole walk, from node 1.
pub fn measure_all(block: &[u32], h: Header, low: u32, high: u32) -> Meter
    ensures { result ≡ measure_of low high (walked block.now h) }
{
    let mut m = Tally {
        low,
        high,
        count: 0,
        found: false,
        sound: true,
    };
    let root = node::kin_of(block, h, 1);
    let allowed = m.walk(block, h, root, h.nodesused);
    Meter {
        allowed,
        count: m.count,
        found: m.found,
        sound: m.sound,
    }
}
