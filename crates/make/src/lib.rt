// Making over a lent block and a lent row of process records: the block by crate `fresh`, the row here. No public function asks anything of its caller.
#![tactic(auto)]

ghost use Rattle.std.specs.Prelude.{◌≡◌, Result};
ghost use Rattle.make.specs.Make.{make_out, make_call};

use process::Process;
use tables::numbers;
use tables::numbers::{Making, Refusal};

// "Making checks 1, 2", for the block and for the row; then the fresh tree, and all process records idle. A row too short is refused before a word is written, and after the making numbers.
#[tactic(auto, unfolding(crate::specs::Make::make_call, tables::specs::Choice::pick))]
pub fn make(block: &mut [u32], row: &mut [Process], m: Making) -> Result<(), Refusal>
    ensures { make_out result block.new row.new ≡ make_call block.old row.old m.k m.processes m.nodes m.records }
{
    let needed = m.processes as usize;
    if row.len() < needed {
        let k = numbers::k_stored(m.k);
        let good = (Making { k, ..m }).numbers_good();
        return Err(if good {
            Refusal::TooShort
        } else {
            Refusal::MakingNumber
        });
    }
    fresh::make_block(block, m)?;
    row[..needed].fill(Process::idle());
    Ok(())
}
