// The work that is timed: a tree is made and filled, keys are sought in it, and keys go and come until there is no room.
ghost use Rattle.std.specs.Prelude.{◌≡◌};
ghost use Rattle.speed.specs.Steps.{steps_out, steps_from};
ghost use Rattle.speed.specs.Operation.{ending_of, operate_out, operate_of};
ghost use Rattle.speed.specs.Work.{key_of, is_over, mixed_of, tallied_of, nothing_yet, period_of, asked_of, change_of, turn_of, done_out, done_from, fresh_of, round_out, round_of, rounds_from};

use process::{Answer, Process, Progress};
use tables::numbers::{Making, Refusal};

// More steps than any operation of a process alone takes.
const MOST_STEPS: u32 = 1000000;

// In the sum, beside the paper's 0 no, 1 yes, 2 full; the peer adds the same.
const NO_ANSWER: u32 = 3;

// A prime below infinity.
const PRIME: u64 = 4294967291;

// How much is to be done, in the order of the input.
#[derive(Clone, Copy)]
pub struct Work {
    pub k: u32,
    pub nodes: u32,
    pub records: u32,
    pub keys: u32,
    pub finds: u32,
    pub changes: u32,
    pub rounds: u32,
}

// What an operation answered, and in how many steps.
#[derive(Clone, Copy)]
struct Ending {
    answer: Answer,
    steps: u32,
}

// How the operations ended, their steps in all, and a sum in which their order counts.
#[derive(Clone, Copy, Default)]
pub struct Tally {
    pub yes: u64,
    pub no: u64,
    pub full: u64,
    pub refused: u64,
    pub steps: u64,
    pub sum: u32,
}

// A tree is filled, then keys are sought in it, then keys go and come; these two after so many keys were inserted.
#[derive(Clone, Copy)]
enum Part {
    Filling,
    Finding(u32),
    Changing(u32),
}

// An operation, and the number of its key.
#[derive(Clone, Copy)]
struct Asked {
    operation: u32,
    number: u32,
}

// Keys that are all different, in no order, and below infinity.
fn key_of(i: u32) -> u32
    ensures { result ≡ key_of i }
{
    ((u64::from(i) + 1) * 2654435761 % PRIME) as u32
}

// By `index::step` over a lent row, as a driver calls it, since that is what is timed; the session's steps go over a row that is held.
// Steps of process 1 in a row of one record, until an answer or a refusal; at most so many.
fn steps(block: &mut [u32], held: [Process; 1], most: u32) -> Result<Progress, Refusal>
    ensures { steps_out result block.new ≡ steps_from most block.old held }
{
    let mut row = held;
    for _ in 0..most {
        let answer = index::step(block, &mut row, 1);
        match answer {
            Ok(Progress::GoesOn) => {}
            Ok(Progress::Ended(_, _)) => return answer,
            Err(_) => return answer,
        }
    }
    Ok(Progress::GoesOn)
}

fn ending_of(answer: Result<Progress, Refusal>) -> Option<Ending>
    ensures { result ≡ ending_of answer }
{
    match answer {
        Ok(Progress::Ended(answer, steps)) => Some(Ending { answer, steps }),
        Ok(Progress::GoesOn) | Err(_) => None,
    }
}

// One operation of process 1, from its start to its answer; none if it is refused, or has none after so many steps.
#[tactic(auto, unfolding(crate::specs::Operation::operate_of))]
fn operate(block: &mut [u32], operation: u32, key: u32) -> Option<Ending>
    ensures { operate_out result block.new ≡ operate_of block.old operation key }
{
    let mut row = [Process::idle(); 1];
    let _ = index::start(block, &mut row, 1, operation, key);
    ending_of(steps(block, row, MOST_STEPS))
}

// Full or refused: no more of its part is done.
fn is_over(e: Option<Ending>) -> bool
    ensures { result ≡ is_over e }
{
    e.is_none_or(|e| matches!(e.answer, Answer::Full))
}

fn mixed(sum: u32, answer: u32, steps: u32) -> u32
    ensures { result ≡ mixed_of sum answer steps }
{
    ((u64::from(sum) * 31 + u64::from(steps) * 4 + u64::from(answer)) % PRIME) as u32
}

impl Tally {
    // One operation more.
    #[tactic(auto, unfolding(tables::specs::Choice::pick))]
    fn count(&mut self, e: Option<Ending>)
        ensures { self.new ≡ tallied_of self.old e }
    {
        let (number, steps) = match e {
            Some(e) => (e.answer.number(), e.steps),
            None => (NO_ANSWER, 0),
        };
        match e.map(|e| e.answer) {
            Some(Answer::No) => self.no = self.no.wrapping_add(1),
            Some(Answer::Yes) => self.yes = self.yes.wrapping_add(1),
            Some(Answer::Full) => self.full = self.full.wrapping_add(1),
            None => self.refused = self.refused.wrapping_add(1),
        }
        self.steps = self.steps.wrapping_add(u64::from(steps));
        self.sum = mixed(self.sum, number, steps);
    }
}

// Finds come round again after twice as many keys as were inserted, so that half of those sought were.
#[tactic(auto, unfolding(tables::specs::Choice::pick))]
fn period(count: u32) -> u32
    ensures { result ≡ period_of count }
{
    if count < 1000000 { 2 * count + 2 } else { 1 }
}

// What operation i of a part asks. In a change the oldest key goes, or a new one comes.
fn asks(part: Part, i: u32) -> Asked
    ensures { result ≡ asked_of part i }
{
    match part {
        Part::Filling => Asked {
            operation: process::INSERT,
            number: i,
        },
        Part::Finding(count) => Asked {
            operation: process::FIND,
            number: i % period(count),
        },
        Part::Changing(count) => change(count, i),
    }
}

#[tactic(auto, unfolding(tables::specs::Choice::pick))]
fn change(count: u32, i: u32) -> Asked
    ensures { result ≡ change_of count i }
{
    if i % 2 == 0 {
        Asked {
            operation: process::DELETE,
            number: i / 2,
        }
    } else {
        Asked {
            operation: process::INSERT,
            number: count.wrapping_add(i / 2),
        }
    }
}

// Operation i of a part.
fn turn(block: &mut [u32], part: Part, i: u32) -> Option<Ending>
    ensures { operate_out result block.new ≡ turn_of part i block.old }
{
    let a = asks(part, i);
    operate(block, a.operation, key_of(a.number))
}

// So many operations of a part, or until one is over; says how many were tried.
fn perform(block: &mut [u32], part: Part, number: u32, tally: &mut Tally) -> u32
    ensures { done_out tally.new result block.new ≡ done_from part number 0 tally.old block.old }
{
    for i in 0..number {
        let e = turn(block, part, i);
        tally.count(e);
        if is_over(e) {
            return i + 1;
        }
    }
    number
}

// A fresh tree for one process; a making that is refused leaves the block as it was.
fn fresh(block: &mut [u32], w: Work)
    ensures { block.new ≡ fresh_of w block.old }
{
    let m = Making {
        k: w.k,
        processes: 1,
        nodes: w.nodes,
        records: w.records,
    };
    held::make_held(block, [Process::idle(); 32], m);
}

// A tree, and all that is to be done on it.
fn round(block: &mut [u32], w: Work, tally: &mut Tally)
    ensures { round_out tally.new block.new ≡ round_of w tally.old block.old }
{
    fresh(block, w);
    let count = perform(block, Part::Filling, w.keys, tally);
    perform(block, Part::Finding(count), w.finds, tally);
    perform(block, Part::Changing(count), w.changes, tally);
}

pub fn rounds(block: &mut [u32], w: Work) -> Tally
    ensures { round_out result block.new ≡ rounds_from w.rounds w nothing_yet block.old }
{
    let mut tally = Tally::default();
    for _ in 0..w.rounds {
        round(block, w, &mut tally);
    }
    tally
}
