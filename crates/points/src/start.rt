// A start of one process record, on every input.
ghost use Rattle.std.specs.Prelude.{◌≡◌, Result};
ghost use Rattle.points.specs.Step.{start_of};
ghost use Rattle.points.specs.Parts.{start_known, start_good};

use process::Process;
use tables::header::Header;
use tables::numbers::Refusal;
use tables::{header, numbers};

// Refusals 5, 6, 7, once the process is known.
fn start_known(q: Process, operation: u32, key: u32) -> Result<Process, Refusal>
    ensures { result ≡ start_known q operation key }
{
    if operation < process::FIND || process::DELETE < operation {
        Err(Refusal::UnknownOperation)
    } else if key == numbers::INFINITY {
        Err(Refusal::InfinityGiven)
    } else if q.operation != 0 {
        Err(Refusal::Busy)
    } else {
        Ok(Process::started_as(operation, key))
    }
}

fn start_good(
    h: Header,
    rows: u64,
    n: u32,
    q: Process,
    operation: u32,
    key: u32,
) -> Result<Process, Refusal>
    ensures { result ≡ start_good h rows n q operation key }
{
    if rows < u64::from(h.processes) {
        Err(Refusal::TooShort)
    } else if n < 1 || u32::from(h.processes) < n {
        Err(Refusal::NoSuchProcess)
    } else {
        start_known(q, operation, key)
    }
}

// A start of process n, whose record is q, beside a row of so many records: the record then.
pub fn start(
    block: &[u32],
    rows: u64,
    n: u32,
    q: Process,
    operation: u32,
    key: u32,
) -> Result<Process, Refusal>
    ensures { result ≡ start_of block.now rows n q operation key }
{
    let h = header::read_header(block)?;
    start_good(h, rows, n, q, operation, key)
}
