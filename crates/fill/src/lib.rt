// The filling pass: a walk's keys stored in a lent list, from its front.
// Its one public function asks nothing of its caller: what has no room in the list is not stored.
#![tactic(auto)]

ghost use Rattle.std.specs.Prelude.{◌≡◌};
ghost use Rattle.std.proofs.lemmas.List.Edits.{sets};
ghost use Rattle.nodes.specs.Keys.{keys_of};
ghost use Rattle.meter.specs.Walk.{walked};
ghost use Rattle.fill.specs.Fill.{Filled};
ghost use Rattle.fill.specs.Laws.{filled_nothing, filled_behind, filled_one};

use meter::Pass;
use nodes::node;
use tables::header::Header;
use tables::words;

// The lent list, and where the next key goes.
#[derive(Drop)]
struct Filling<'a> {
    list: &'a mut [u32],
    at: u64,
}

impl Pass for Filling<'_> {
    ghost met = { Filled };

    ghost nothing = { filled_nothing };

    ghost behind = { filled_behind };

    ghost one = { filled_one };

    fn leaf(&mut self, block: &[u32], h: Header, node: u32, count: u8) {
        store_keys(block, h, node, count, self.list, self.at);
        // A leaf has a byte of keys at most and a walk 16 bits of nodes: the place never gets so far.
        self.at = self.at.saturating_add(u64::from(count));
    }

    fn damage(&mut self) {}
}

// A leaf's keys, one behind the other.
fn store_keys(block: &[u32], h: Header, node: u32, count: u8, list: &mut [u32], at: u64)
    ensures { list.new ≡ sets list.old at (keys_of block.now h node count) }
{
    for i in 0..u32::from(count) {
        let key = h.key_word(block, node, i + 1);
        words::put_at(list, at.saturating_add(u64::from(i)), key);
    }
}

// All keys of the walk from node 1.
pub fn fill_all(block: &[u32], h: Header, list: &mut [u32])
    ensures { list.new ≡ sets list.old 0 (walked block.now h).keys }
{
    let root = node::kin_of(block, h, 1);
    let mut filling = Filling { list, at: 0 };
    filling.walk(block, h, root, h.nodesused);
}
