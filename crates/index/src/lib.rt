// The calls a driver makes: make, start and step over a lent block and a lent row of process records; listing, its twin and range over the block alone.
// Start and step each take one record out of the row, hand it by value to the calls below, and put back what they answer; a call that is refused puts back nothing. No public one asks anything of its caller.
#![tactic(auto)]

ghost use Rattle.std.specs.Prelude.{◌≡◌, get_or, set, Result};
ghost use Rattle.process.specs.Process.{idle};
ghost use Rattle.index.specs.Calls.{start_out, start_call, step_out, step_call};

use process::{Process, Progress};
use tables::numbers::Refusal;

// Making is proved in crate `make`, the "single calls, lent the block without the process row" in crate `walk`; all are passed on with their contracts, so that a driver calls one crate.
pub use make::make;
pub use walk::{listing, listing_part, range};

// The record at a place of the row, counted from 0; an idle one past its end. (For words `tables::words` has the like, one line of the library's each.)
pub fn take(row: &[Process], at: usize) -> Process
    ensures { result ≡ get_or row.now at idle }
{
    row.get(at).copied().unwrap_or(Process::idle())
}

// The record is put at its place; past the row's end nothing is done.
pub fn put(row: &mut [Process], at: usize, q: Process)
    ensures { row.new ≡ set row.old at q }
{
    if at < row.len() {
        row[at] = q;
    }
}

// "Each accepted step does the one row of its point". For process 0 the first record is looked at: the call is refused.
pub fn step(block: &mut [u32], row: &mut [Process], process: u32) -> Result<Progress, Refusal>
    ensures { step_out result block.new row.new ≡ step_call block.old row.old process }
{
    let rows = row.len() as u64;
    let at = process.saturating_sub(1) as usize;
    let stepped = points::step::step(block, rows, process, take(row, at))?;
    put(row, at, stepped.process);
    Ok(stepped.progress)
}

// A start of a process: the block is only read.
pub fn start(
    block: &[u32],
    row: &mut [Process],
    process: u32,
    operation: u32,
    key: u32,
) -> Result<(), Refusal>
    ensures { start_out result row.new ≡ start_call block.now row.old process operation key }
{
    let rows = row.len() as u64;
    let at = process.saturating_sub(1) as usize;
    let started = points::start::start(block, rows, process, take(row, at), operation, key)?;
    put(row, at, started);
    Ok(())
}
