// Document 01, "To run only": what is tried at the limits, a line for each call and its answer behind it, all with 32 processes.
#![tactic(auto)]

use held::Held;
use print::lines::{StartLine, StepLine};
use print::write;
use process::Process;
use script::lines::Line;
use session::line::{Said, Session, Turn};
use session::{line, text};
use tables::numbers;
use tables::numbers::Making;

const HIGHEST_KEY: u32 = numbers::INFINITY - 1;

const PROCESSES: u32 = 32;

const RECORDS: u32 = 8;

// The roomy block of k = 8 has 6 + 64·17 + 8·8 + 32·((64 − 17) div 8) = 1,318 words.
const BLOCK_WORDS: usize = 2048;

const LIST_WORDS: usize = 64;

const TEXT_BYTES: usize = 1024;

// The tables that are tried, and what is needed to say so: where it is printed, and room for a listing and for a text.
#[derive(Drop)]
struct Trial<'a, R> {
    rt: &'a R,
    block: [u32; BLOCK_WORDS],
    row: [Process; 32],
    list: [u32; LIST_WORDS],
    out: [u8; TEXT_BYTES],
}

impl<R: Print> Trial<'_, R> {
    // A write that fails is passed over: what follows is tried and written all the same.
    fn write(&self, text: &[u8]) {
        let _ = self.rt.write_all(text);
    }

    // The front of the text is written.
    fn show(&self, n: usize) {
        self.write(&self.out[..n.min(TEXT_BYTES)]);
    }

    fn make(&mut self, k: u32, nodes: u32) {
        let making = Making {
            k,
            processes: PROCESSES,
            nodes,
            records: RECORDS,
        };
        let n = write::write_making(&mut self.out, 0, making);
        self.show(n);
        let Held { answer, row } = held::make_held(&mut self.block, self.row, making);
        self.row = row;
        match answer {
            Ok(()) => self.write(b": made\n"),
            Err(e) => {
                self.write(b": ");
                let n = write::write_refused(&mut self.out, 0, e.number());
                self.show(n);
            }
        }
    }

    fn put_line(&mut self, asked: Line) -> usize {
        match asked {
            Line::Making(m) => write::write_making(&mut self.out, 0, m),
            Line::Start(s) => write::write_start(&mut self.out, 0, s),
            Line::Steps(s) => write::write_steps(&mut self.out, 0, s),
            Line::List => write::write_list(&mut self.out, 0),
        }
    }

    // A line of the bench, but on tables that may have more processes than the bench's.
    fn ask(&mut self, asked: Line) {
        let n = self.put_line(asked);
        self.show(n);
        self.write(b": ");
        let Turn {
            said,
            session: Session { row, .. },
        } = line::later(&mut self.block, &mut self.list, self.row, Some(asked));
        self.row = row;
        match said {
            Said::Nothing => self.write(b"accepted\n"),
            said => {
                let n = text::put_said(&mut self.out, said, &self.list);
                self.show(n);
            }
        }
    }

    fn start(&mut self, process: u32, op: u32, key: u32) {
        self.ask(Line::Start(StartLine { process, op, key }));
    }

    fn step(&mut self, process: u32, times: u32) {
        self.ask(Line::Steps(StepLine { process, times }));
    }

    // No process has this number.
    fn nobody(&mut self, process: u32) {
        self.start(process, process::FIND, 0);
        self.step(process, 1);
    }

    // The last process runs an operation on the highest key.
    fn highest(&mut self, op: u32) {
        self.start(PROCESSES, op, HIGHEST_KEY);
        self.step(PROCESSES, 64);
    }

    // One node too few, just enough, and room for the calls.
    fn makings(&mut self, k: u8) {
        let k = u32::from(k);
        let fresh = 2 * k + 1;
        self.make(k, fresh - 1);
        self.make(k, fresh);
        self.make(k, 8 * k);
    }

    // Processes 0 and 33 are none.
    fn nobodies(&mut self) {
        self.nobody(0);
        self.nobody(PROCESSES + 1);
    }

    // The highest key is let in, infinity is refused; then the set.
    fn keys(&mut self) {
        self.highest(process::INSERT);
        self.highest(process::FIND);
        self.start(PROCESSES, process::INSERT, numbers::INFINITY);
        self.start(PROCESSES, process::FIND, numbers::INFINITY);
        self.ask(Line::List);
    }

    fn run(&mut self) {
        self.make(1, 64);
        self.make(9, 64);
        for k in 2..=8 {
            self.makings(k);
            self.nobodies();
            self.keys();
        }
    }
}

fn main(rt: HostRuntime) {
    let mut trial = Trial {
        rt: &rt,
        block: [0; BLOCK_WORDS],
        row: [Process::idle(); 32],
        list: [0; LIST_WORDS],
        out: [0; TEXT_BYTES],
    };
    trial.run();
}
