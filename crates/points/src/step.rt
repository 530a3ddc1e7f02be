// One step of one process record, on every input: all refusals in document 01's order, then the one row of its point.
ghost use Rattle.std.specs.Prelude.{◌≡◌, true};
ghost use Rattle.tables.specs.Choice.{both};
ghost use Rattle.tables.specs.Header.{header_good};
ghost use Rattle.damage.specs.Fields.{process_good};
ghost use Rattle.damage.specs.Helped.{helped_good};
ghost use Rattle.help.specs.Touch.{out, row_done};
ghost use Rattle.points.specs.Rows.{row_of};
ghost use Rattle.points.specs.Step.{step_of};
ghost use Rattle.points.specs.Parts.{Ready, step_good};

use crate::search;
use process::{Process, Stepped};
use tables::header;
use tables::header::Header;
use tables::numbers::Refusal;

// "Each accepted step does the one row of its point." A process's number goes beside its record: document 01's fifteen fields do not hold it.
// Fourteen arms on the point's number and a range for damaged ones are document 01's form ("Forms by place in the code").
#[tactic(auto, using(crate::proofs::Steps::outside))]
fn row(block: &mut [u32], h: Header, n: u32, q: Process) -> Result<Stepped, Refusal>
    requires { Ready q }
    ensures { out result block.new ≡ row_done block.old (row_of block.old h n q) }
{
    match q.point {
        1 => search::point_1(block, h, q),
        2 => search::point_2(block, h, q),
        3 => search::point_3(block, h, q),
        4 => flag::point_4(block, h, n, q),
        5 => flag::point_5(block, h, n, q),
        6 => finish::point_6(block, h, q),
        7 => finish::point_7(block, h, q),
        8 => finish::point_8(block, h, n, q),
        9 => mark::point_9(block, h, n, q),
        10 => mark::point_10(block, h, n, q),
        11 => mark::point_11(block, h, q),
        12 => finish::point_12(block, h, q),
        13 => finish::point_13(block, h, q),
        14 => finish::point_14(block, h, n, q),
        0 | 15..=4294967295 => Err(Refusal::Damaged),
    }
}

// The process record's fields, then the record that it helps: nothing is read by a number that is not sound, and a search pays for no record.
fn step_sound(block: &[u32], h: Header, q: Process) -> bool
    ensures { result ≡ both (process_good block.now h q) (helped_good block.now h q) }
{
    damage::fields::process_good(block, h, q) && damage::helped::helped_good(block, h, q)
}

#[tactic(auto, using(crate::proofs::Steps::ready), unfolding(tables::specs::Choice::pick, tables::specs::Choice::both, help::specs::Touch::row_done))]
fn step_good(
    block: &mut [u32],
    h: Header,
    rows: u64,
    n: u32,
    q: Process,
) -> Result<Stepped, Refusal>
    requires { header_good h ≡ true }
    ensures { out result block.new ≡ step_good block.old h rows n q }
{
    if rows < u64::from(h.processes) {
        Err(Refusal::TooShort)
    } else if n < 1 || u32::from(h.processes) < n {
        Err(Refusal::NoSuchProcess)
    } else if q.operation == 0 {
        Err(Refusal::Idle)
    } else if !step_sound(block, h, q) {
        Err(Refusal::Damaged)
    } else {
        row(block, h, n, q)
    }
}

// A step of process n, whose record is q, beside a row of so many records.
#[tactic(auto, using(crate::proofs::Steps::calls))]
pub fn step(block: &mut [u32], rows: u64, n: u32, q: Process) -> Result<Stepped, Refusal>
    ensures { out result block.new ≡ step_of block.old rows n q }
{
    let h = header::read_header(block)?;
    step_good(block, h, rows, n, q)
}
