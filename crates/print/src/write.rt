// Lines written into a lent buffer from a place on, as far as the buffer reaches; each function gives the place behind what it wrote.
ghost use Rattle.std.specs.Prelude.{◌≡◌};
ghost use Rattle.print.specs.Text.{decimal};
ghost use Rattle.print.specs.Writing.{out, written, Puts, named, op_field, answer_field, answer_line, refused_line, count_line, key_line};
ghost use Rattle.print.specs.Writing.{op_word as word_of_op, answer_word as word_of_answer};
ghost use Rattle.print.specs.Writing.{plain_making_text, making_text, start_text, steps_text, list_text};

use crate::lines::{AnswerLine, CountLine, StartLine, StepLine};
use tables::numbers::Making;

// Buffer and place stay two parameters: what each line promises, `out result buffer.new ≡ written buffer.old at ..`, speaks of both.
pub fn put_bytes(buffer: &mut [u8], at: usize, text: &[u8]) -> usize
    ensures { out result buffer.new ≡ written buffer.old at text.now }
{
    if buffer.len() <= at {
        return at;
    }
    let n = text.len().min(buffer.len() - at);
    buffer[at..at + n].copy_from_slice(&text[..n]);
    at + n
}

#[tactic(auto, using(crate::proofs::Buffers::words))]
fn op_word(op: u32) -> &'static [u8]
    ensures { result.now ≡ word_of_op op }
{
    match op {
        1 => b"find",
        2 => b"insert",
        3 => b"delete",
        _ => b"",
    }
}

#[tactic(auto, using(crate::proofs::Buffers::words))]
fn answer_word(answer: u32) -> &'static [u8]
    ensures { result.now ≡ word_of_answer answer }
{
    match answer {
        0 => b"no",
        1 => b"yes",
        2 => b"full",
        _ => b"",
    }
}

// A lent buffer, and the place behind what was written into it.
#[derive(Drop)]
struct Writer<'a> {
    buffer: &'a mut [u8],
    at: usize,
}

impl Writer<'_> {
    fn bytes(&mut self, text: &[u8])
        ensures { Puts self.old self.new text.now }
    {
        self.at = put_bytes(self.buffer, self.at, text);
    }

    // The digits before the last one, then the last one.
    fn number(&mut self, n: u32)
        ensures { Puts self.old self.new (decimal n) }
    {
        if n >= 10 {
            self.number(n / 10);
        }
        self.bytes(&[b'0' + (n % 10) as u8]);
    }

    fn named(&mut self, name: &[u8], n: u32)
        ensures { Puts self.old self.new (named name.now n) }
    {
        self.bytes(name);
        self.number(n);
    }

    fn op(&mut self, op: u32)
        ensures { Puts self.old self.new (op_field op) }
    {
        self.bytes(b" op=");
        self.bytes(op_word(op));
    }

    fn answer(&mut self, answer: u32)
        ensures { Puts self.old self.new (answer_field answer) }
    {
        self.bytes(b" answer=");
        self.bytes(answer_word(answer));
    }

    fn making(&mut self, m: Making)
        ensures { Puts self.old self.new (plain_making_text m) }
    {
        self.named(b"processes=", m.processes);
        self.named(b" nodes=", m.nodes);
        self.named(b" records=", m.records);
    }
}

// The lines that the bench prints, each with its newline.
pub fn write_answer(buffer: &mut [u8], at: usize, a: AnswerLine) -> usize
    ensures { out result buffer.new ≡ written buffer.old at (answer_line a) }
{
    let mut line = Writer { buffer, at };
    line.named(b"process=", a.process);
    line.op(a.op);
    line.named(b" key=", a.key);
    line.answer(a.answer);
    line.named(b" steps=", a.steps);
    line.bytes(b"\n");
    line.at
}

pub fn write_refused(buffer: &mut [u8], at: usize, number: u32) -> usize
    ensures { out result buffer.new ≡ written buffer.old at (refused_line number) }
{
    let mut line = Writer { buffer, at };
    line.named(b"refused=", number);
    line.bytes(b"\n");
    line.at
}

pub fn write_count(buffer: &mut [u8], at: usize, c: CountLine) -> usize
    ensures { out result buffer.new ≡ written buffer.old at (count_line c) }
{
    let mut line = Writer { buffer, at };
    line.named(b"count=", c.count);
    line.named(b" nodes=", c.nodes);
    line.named(b" records=", c.records);
    line.bytes(b"\n");
    line.at
}

pub fn write_key(buffer: &mut [u8], at: usize, key: u32) -> usize
    ensures { out result buffer.new ≡ written buffer.old at (key_line key) }
{
    let mut line = Writer { buffer, at };
    line.named(b"key=", key);
    line.bytes(b"\n");
    line.at
}

// The lines of a script, each without its newline, as they are read.
pub fn write_plain_making(buffer: &mut [u8], at: usize, m: Making) -> usize
    ensures { out result buffer.new ≡ written buffer.old at (plain_making_text m) }
{
    let mut line = Writer { buffer, at };
    line.making(m);
    line.at
}

pub fn write_making(buffer: &mut [u8], at: usize, m: Making) -> usize
    ensures { out result buffer.new ≡ written buffer.old at (making_text m) }
{
    let mut line = Writer { buffer, at };
    line.named(b"k=", m.k);
    line.bytes(b" ");
    line.making(m);
    line.at
}

pub fn write_start(buffer: &mut [u8], at: usize, s: StartLine) -> usize
    ensures { out result buffer.new ≡ written buffer.old at (start_text s) }
{
    let mut line = Writer { buffer, at };
    line.named(b"start=", s.process);
    line.op(s.op);
    line.named(b" key=", s.key);
    line.at
}

pub fn write_steps(buffer: &mut [u8], at: usize, s: StepLine) -> usize
    ensures { out result buffer.new ≡ written buffer.old at (steps_text s) }
{
    let mut line = Writer { buffer, at };
    line.named(b"step=", s.process);
    line.named(b" times=", s.times);
    line.at
}

pub fn write_list(buffer: &mut [u8], at: usize) -> usize
    ensures { out result buffer.new ≡ written buffer.old at list_text }
{
    put_bytes(buffer, at, b"list=all")
}
