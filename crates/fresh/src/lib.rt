// "Fresh tree (Figure 6)": making on a lent block. The one call here is total: it asks nothing of its caller and states its result and the whole block on every input.
#![tactic(auto)]

ghost use Rattle.std.specs.Prelude.{◌≡◌, Result};
ghost use Rattle.std.proofs.lemmas.List.Edits.{sets};
ghost use Rattle.fresh.specs.Fresh.{make_out, make_of, header_image, written_fresh};

use nodes::node;
use tables::header::Header;
use tables::numbers::{Making, Refusal};
use tables::{numbers, words};

// "Header, 6 words: k, processes, node limit, nodes used, record limit, records used"
fn write_header(block: &mut [u32], h: Header)
    ensures { block.new ≡ sets block.old 0 (header_image h) }
{
    words::put_at(block, 0, u32::from(h.k));
    words::put_at(block, 1, u32::from(h.processes));
    words::put_at(block, 2, u32::from(h.nodes));
    words::put_at(block, 3, u32::from(h.nodesused));
    words::put_at(block, 4, u32::from(h.records));
    words::put_at(block, 5, u32::from(h.recordsused));
}

// "node 1 is the root, node 2 the dummy; both hold only infinity."
fn write_fresh(block: &mut [u32], h: Header)
    ensures { block.new ≡ written_fresh h block.old }
{
    let all = [numbers::INFINITY; numbers::KEY_ROOM];
    write_header(block, h);
    node::write_internal(block, h, 1, all, 2, 0);
    node::write_internal(block, h, 2, all, u16::from(h.k) + 2, 0);
}

// Making on a lent block: refusals 1, 2, else the fresh tree.
pub fn make_block(block: &mut [u32], m: Making) -> Result<(), Refusal>
    ensures { make_out result block.new ≡ make_of block.old m.k m.processes m.nodes m.records }
{
    let k = numbers::k_stored(m.k);
    if !(Making { k, ..m }).numbers_good() {
        return Err(Refusal::MakingNumber);
    }
    let h = Header {
        k: k as u8,
        processes: m.processes as u8,
        nodes: m.nodes as u16,
        nodesused: numbers::fresh_nodes(k) as u16,
        records: m.records as u16,
        recordsused: 0,
    };
    let n = h.block_words();
    if (block.len() as u64) < n {
        return Err(Refusal::TooShort);
    }
    block[..n as usize].fill(0);
    write_fresh(block, h);
    Ok(())
}
