// What one line of the script does: the making line first, then starts, steps and listings.
ghost use Rattle.std.specs.Prelude.{◌≡◌};
ghost use Rattle.index.specs.Calls.{record_of, step_out};
ghost use Rattle.session.specs.Line.{within_bench, begun, turn_of, did, done, making_done, first_done, start_done, goes_on, steps_of, steps_said, steps_done, list_done, later_done, line_done, is_over, finished};

use held::Held;
use print::lines::{AnswerLine, CountLine, StartLine, StepLine};
use process::{Process, Progress};
use script::lines::Line;
use tables::numbers::{Making, Refusal};
use tables::{numbers, words};

// "Bench program: at most 8 processes, 512 nodes, 512 records .. more is refused 1."
pub const BENCH_PROCESSES: u32 = 8;

pub const BENCH_NODES: u32 = 512;

pub const BENCH_RECORDS: u32 = 512;

// No line yet; the tables are made; a first line was refused.
#[derive(Clone, Copy, Debug, PartialEq, Eq)]
pub enum Stage {
    First,
    Made,
    Ended,
}

#[derive(Clone, Copy)]
pub struct Session {
    pub stage: Stage,
    pub row: [Process; 32],
}

// What is to be printed of a line: four things, of which a refusal is one and no failure of the session's. The keys of a listing stand in the lent list.
#[derive(Clone, Copy)]
pub enum Said {
    Nothing,
    Answered(AnswerLine),
    Refused(Refusal),
    Listed(CountLine),
}

#[derive(Clone, Copy)]
pub struct Turn {
    pub said: Said,
    pub session: Session,
}

// Before the first line.
pub fn begin() -> Session
    ensures { result ≡ begun }
{
    Session {
        stage: Stage::First,
        row: [Process::idle(); 32],
    }
}

fn saying(said: Said, stage: Stage, row: [Process; 32]) -> Turn
    ensures { result ≡ turn_of said stage row }
{
    Turn {
        said,
        session: Session { stage, row },
    }
}

fn within_bench(m: Making) -> bool
    ensures { result ≡ within_bench m }
{
    m.processes <= BENCH_PROCESSES && m.nodes <= BENCH_NODES && m.records <= BENCH_RECORDS
}

fn making(block: &mut [u32], row: [Process; 32], m: Making) -> Turn
    ensures { did result block.new ≡ making_done block.old row m }
{
    if !within_bench(m) {
        return saying(Said::Refused(Refusal::MakingNumber), Stage::Ended, row);
    }
    let made = held::make_held(block, row, m);
    match made.answer {
        Ok(()) => saying(Said::Nothing, Stage::Made, made.row),
        Err(e) => saying(Said::Refused(e), Stage::Ended, made.row),
    }
}

// "in the first line it ends the run"
fn first(block: &mut [u32], row: [Process; 32], line: Option<Line>) -> Turn
    ensures { did result block.new ≡ first_done block.old row line }
{
    match line {
        Some(Line::Making(m)) => making(block, row, m),
        Some(Line::Start(_) | Line::Steps(_) | Line::List) | None => {
            saying(Said::Refused(Refusal::NotInForm), Stage::Ended, row)
        }
    }
}

fn start(block: &[u32], row: [Process; 32], s: StartLine) -> Turn
    ensures { result ≡ start_done block.now row s }
{
    let h = held::start_held(block, row, s.process, s.op, s.key);
    match h.answer {
        Ok(()) => saying(Said::Nothing, Stage::Made, h.row),
        Err(e) => saying(Said::Refused(e), Stage::Made, h.row),
    }
}

// "`times` ends early at an answer or a refusal."
fn steps(
    block: &mut [u32],
    row: [Process; 32],
    process: u32,
    times: u32,
) -> Held<Result<Progress, Refusal>, 32>
    ensures { step_out result.answer block.new result.row ≡ steps_of times block.old row process }
{
    let mut now = row;
    for _ in 0..times {
        let h = held::step_held(block, now, process);
        match h.answer {
            Ok(Progress::GoesOn) => now = h.row,
            Ok(Progress::Ended(_, _)) => return h,
            Err(_) => return h,
        }
    }
    Held {
        answer: Ok(Progress::GoesOn),
        row: now,
    }
}

// The record of a process: what it is busy with.
fn record_of(row: [Process; 32], process: u32) -> Process
    ensures { result ≡ record_of row process }
{
    index::take(&row, process.saturating_sub(1) as usize)
}

// The operation and key that are printed are those of the process before the steps: an answer leaves it idle.
fn steps_said(process: u32, q: Process, answer: Result<Progress, Refusal>) -> Said
    ensures { result ≡ steps_said process q answer }
{
    match answer {
        Ok(Progress::GoesOn) => Said::Nothing,
        Ok(Progress::Ended(a, steps)) => Said::Answered(AnswerLine {
            process,
            op: q.operation,
            key: q.key,
            answer: a.number(),
            steps,
        }),
        Err(e) => Said::Refused(e),
    }
}

fn step_line(block: &mut [u32], row: [Process; 32], s: StepLine) -> Turn
    ensures { did result block.new ≡ steps_done block.old row s }
{
    let q = record_of(row, s.process);
    let h = steps(block, row, s.process, s.times);
    saying(steps_said(s.process, q, h.answer), Stage::Made, h.row)
}

// "The count line gives keys in the set, nodes used, records used."
fn list_all(block: &[u32], list: &mut [u32]) -> Said
    ensures { record { said = result; list = list.new } ≡ list_done block.now list.old }
{
    match index::listing(block, list) {
        Ok(count) => Said::Listed(CountLine {
            count,
            nodes: words::word_at(block, numbers::NODES_USED_AT),
            records: words::word_at(block, numbers::RECORDS_USED_AT),
        }),
        Err(e) => Said::Refused(e),
    }
}

// A line once the tables are made. A making line is then not in its form.
pub fn later(block: &mut [u32], list: &mut [u32], row: [Process; 32], line: Option<Line>) -> Turn
    ensures { done result block.new list.new ≡ later_done block.old list.old row line }
{
    match line {
        Some(Line::Start(s)) => start(block, row, s),
        Some(Line::Steps(s)) => step_line(block, row, s),
        Some(Line::List) => {
            let said = list_all(block, list);
            saying(said, Stage::Made, row)
        }
        Some(Line::Making(_)) | None => saying(Said::Refused(Refusal::NotInForm), Stage::Made, row),
    }
}

// What a line does, on every input.
pub fn act(block: &mut [u32], list: &mut [u32], s: Session, line: Option<Line>) -> Turn
    ensures { done result block.new list.new ≡ line_done block.old list.old s.stage s.row line }
{
    match s.stage {
        Stage::First => first(block, s.row, line),
        Stage::Made => later(block, list, s.row, line),
        Stage::Ended => saying(Said::Nothing, Stage::Ended, s.row),
    }
}

// Nothing more is read: a refusal "in the first line .. ends the run", and so does the end of the input.
pub fn is_over(s: Session) -> bool
    ensures { result ≡ is_over s.stage }
{
    matches!(s.stage, Stage::Ended)
}

// The input has ended, and the run with it.
pub fn finish(s: Session) -> Session
    ensures { result ≡ finished s }
{
    Session {
        stage: Stage::Ended,
        ..s
    }
}
