// A line of the script, read from its front: each part gives what it holds and what is left of the line behind it, and `None` where the line is not in its form.
ghost use Rattle.std.specs.Prelude.{◌≡◌, option_copied};
ghost use Rattle.print.specs.Text.{front, behind, is_digit, in_word};
ghost use Rattle.script.specs.Reading.{expect, number_in, op_in, op_behind, making_with_k, making_from, start_of, steps_of, list_of, line_of};
ghost use Rattle.script.specs.Reading.{field as field_of};
ghost use Rattle.script.specs.Reading.{op_of as op_of_word};
ghost use Rattle.script.specs.Position.{found_in, value_in};

use crate::lines::Line;
use print::lines::{StartLine, StepLine};
use tables::numbers::Making;

// A longer line is not in its form.
pub const LONGEST: usize = 4096;

fn literal<'a>(line: &'a [u8], word: &[u8]) -> Option<&'a [u8]>
    ensures { option_copied result ≡ expect word.now line.now }
{
    line.strip_prefix(word)
}

// "Numbers are decimal, of 32 bits." A value only grows with more digits, so the first that is too big decides.
fn value_of(digits: &[u8]) -> Option<u32>
    ensures { result ≡ value_in digits.now }
{
    let mut value: u32 = 0;
    for &digit in digits {
        value = value
            .checked_mul(10)?
            .checked_add(u32::from(digit.saturating_sub(b'0')))?;
    }
    Some(value)
}

// The digits that a line begins with, and what is behind them.
fn split_digits(line: &[u8]) -> (&[u8], &[u8])
    ensures digits { result.0.now ≡ front is_digit line.now }
    ensures rest { result.1.now ≡ behind is_digit line.now }
{
    let end = line.iter().position(|b| !b.is_ascii_digit());
    line.split_at(end.unwrap_or(line.len()))
}

fn number(line: &[u8]) -> Option<(u32, &[u8])>
    ensures { found_in result ≡ number_in line.now }
{
    let (digits, rest) = split_digits(line);
    if digits.is_empty() {
        return None;
    }
    Some((value_of(digits)?, rest))
}

// The word that a line begins with, and what is behind it.
fn split_word(line: &[u8]) -> (&[u8], &[u8])
    ensures word { result.0.now ≡ front in_word line.now }
    ensures rest { result.1.now ≡ behind in_word line.now }
{
    let end = line.iter().position(|&b| b == b' ' || b == b'\n');
    line.split_at(end.unwrap_or(line.len()))
}

// "an unknown op is 5", after 4: it is passed on as an operation that the call refuses.
fn op_of(word: &[u8]) -> u32
    ensures { result ≡ op_of_word word.now }
{
    if word == b"find".as_slice() {
        1
    } else if word == b"insert".as_slice() {
        2
    } else if word == b"delete".as_slice() {
        3
    } else {
        0
    }
}

fn op(line: &[u8]) -> Option<(u32, &[u8])>
    ensures { found_in result ≡ op_in line.now }
{
    let (word, rest) = split_word(line);
    if word.is_empty() {
        return None;
    }
    Some((op_of(word), rest))
}

#[tactic(auto, unfolding(crate::specs::Reading::field))]
fn field<'a>(line: &'a [u8], name: &[u8]) -> Option<(u32, &'a [u8])>
    ensures { found_in result ≡ field_of name.now line.now }
{
    number(literal(line, name)?)
}

#[tactic(auto, unfolding(crate::specs::Reading::op_behind))]
fn op_behind<'a>(line: &'a [u8], name: &[u8]) -> Option<(u32, &'a [u8])>
    ensures { found_in result ≡ op_behind name.now line.now }
{
    op(literal(line, name)?)
}

// What follows the k field, with the k that was read.
#[tactic(auto, using(crate::proofs::Turns::at_end_is))]
fn making_from(k: u32, line: &[u8]) -> Option<Line>
    ensures { result ≡ making_from k line.now }
{
    let (processes, line) = field(line, b"processes=")?;
    let (nodes, line) = field(line, b" nodes=")?;
    let (records, line) = field(line, b" records=")?;
    let making = Making {
        k,
        processes,
        nodes,
        records,
    };
    line.is_empty().then_some(Line::Making(making))
}

fn making_with_k(line: &[u8]) -> Option<Line>
    ensures { result ≡ making_with_k line.now }
{
    let (k, line) = field(line, b"k=")?;
    making_from(k, literal(line, b" ")?)
}

#[tactic(auto, using(crate::proofs::Turns::at_end_is))]
fn start_of(line: &[u8]) -> Option<Line>
    ensures { result ≡ start_of line.now }
{
    let (process, line) = field(line, b"start=")?;
    let (op, line) = op_behind(line, b" op=")?;
    let (key, line) = field(line, b" key=")?;
    let start = StartLine { process, op, key };
    line.is_empty().then_some(Line::Start(start))
}

#[tactic(auto, using(crate::proofs::Turns::at_end_is))]
fn steps_of(line: &[u8]) -> Option<Line>
    ensures { result ≡ steps_of line.now }
{
    let (process, line) = field(line, b"step=")?;
    let (times, line) = field(line, b" times=")?;
    let steps = StepLine { process, times };
    line.is_empty().then_some(Line::Steps(steps))
}

#[tactic(auto, using(crate::proofs::Turns::at_end_is))]
fn list_of(line: &[u8]) -> Option<Line>
    ensures { result ≡ list_of line.now }
{
    let line = literal(line, b"list=all")?;
    line.is_empty().then_some(Line::List)
}

// What a line, without its newline, asks for. The forms' first bytes differ, so at most one of them is the line's. "An absent k field is k=0."
pub fn read_line(line: &[u8]) -> Option<Line>
    ensures { result ≡ line_of line.now }
{
    if LONGEST < line.len() {
        return None;
    }
    making_with_k(line)
        .or_else(|| making_from(0, line))
        .or_else(|| start_of(line))
        .or_else(|| steps_of(line))
        .or_else(|| list_of(line))
}
