// Make, start and step of crate `index` over a row that is held by value, for programs: their callers need no proof about a lent row.
#![tactic(auto)]

ghost use Rattle.std.specs.Prelude.{◌≡◌};
ghost use Rattle.make.specs.Make.{make_out, make_call};
ghost use Rattle.index.specs.Calls.{start_out, start_call, step_out, step_call};

use process::{Process, Progress};
use tables::numbers::{Making, Refusal};

// What a call answers, and the row then.
#[derive(Clone, Copy)]
pub struct Held<A, const N: usize> {
    pub answer: A,
    pub row: [Process; N],
}

pub fn make_held<const N: usize>(
    block: &mut [u32],
    mut row: [Process; N],
    m: Making,
) -> Held<Result<(), Refusal>, N>
    ensures { make_out result.answer block.new result.row ≡ make_call block.old row.entry m.k m.processes m.nodes m.records }
{
    let answer = index::make(block, &mut row, m);
    Held { answer, row }
}

pub fn start_held<const N: usize>(
    block: &[u32],
    mut row: [Process; N],
    process: u32,
    operation: u32,
    key: u32,
) -> Held<Result<(), Refusal>, N>
    ensures { start_out result.answer result.row ≡ start_call block.now row.entry process operation key }
{
    let answer = index::start(block, &mut row, process, operation, key);
    Held { answer, row }
}

pub fn step_held<const N: usize>(
    block: &mut [u32],
    mut row: [Process; N],
    process: u32,
) -> Held<Result<Progress, Refusal>, N>
    ensures { step_out result.answer block.new result.row ≡ step_call block.old row.entry process }
{
    let answer = index::step(block, &mut row, process);
    Held { answer, row }
}
