// Fixed work on the project's own calls, to be timed beside a peer that does the same.
// The input's seven numbers say how much; what is printed says what came of it, so that it can be compared with the peer's.
#![tactic(auto)]

mod work;

ghost use Rattle.std.specs.Prelude.{◌≤◌, length};

use std::io::Read;
use tables::{numbers, words};
use work::{Tally, Work};

// The longest block of one process, that of k = 8, has 6 + 4,096·17 + 8·4,096 + (4,096 − 17) div 8 = 102,915 words.
const BLOCK_WORDS: usize = 102915;

const TEXT_BYTES: usize = 256;

// A digit more; past nine digits no more is read.
fn with_digit(n: u32, digit: u8) -> u32 {
    if n < 100000000 {
        n * 10 + u32::from(digit.saturating_sub(b'0'))
    } else {
        n
    }
}

fn number_of(digits: &[u8]) -> u32 {
    digits.iter().fold(0, |n, digit| with_digit(n, *digit))
}

// The numbers of a text, in their order, whatever stands between them; 0 for those that are missing.
fn work_of(text: &[u8]) -> Work {
    let numbers = text
        .split(|byte| !byte.is_ascii_digit())
        .filter(|digits| !digits.is_empty());
    let mut found = [0u32; 7];
    for (number, digits) in found.iter_mut().zip(numbers) {
        *number = number_of(digits);
    }
    let [k, nodes, records, keys, finds, changes, rounds] = found;
    Work {
        k,
        nodes,
        records,
        keys,
        finds,
        changes,
        rounds,
    }
}

// One write for each number: one that fails is passed over, and what stands behind it is written all the same.
fn report(rt: &impl Print, block: &[u32], t: Tally) {
    let Tally {
        yes,
        no,
        full,
        refused,
        steps,
        sum,
    } = t;
    let nodes = words::word_at(block, numbers::NODES_USED_AT);
    let records = words::word_at(block, numbers::RECORDS_USED_AT);
    let _ = print!(rt; "yes={yes}");
    let _ = print!(rt; " no={no}");
    let _ = print!(rt; " full={full}");
    let _ = print!(rt; " refused={refused}");
    let _ = print!(rt; " steps={steps}");
    let _ = print!(rt; " nodes={nodes}");
    let _ = print!(rt; " records={records}");
    let _ = print!(rt; " sum={sum}");
    let _ = rt.write_all(b"\n");
}

// How many bytes one read puts at the front of the text; none where it fails, as at the end of the input.
fn read_some(input: &mut impl Read, text: &mut [u8]) -> usize
    ensures { result ≤ length text.new }
{
    input.read(text).unwrap_or(0)
}

// Reads until the text is full or the input ends, and says how many bytes it put at the front of the text. The library's `read_to_end` needs a heap.
fn read_full(input: &mut impl Read, text: &mut [u8]) -> usize
    ensures { result ≤ length text.new }
{
    let mut done: usize = 0;
    while done < text.len() {
        let n = read_some(input, &mut text[done..]);
        if n == 0 {
            return done;
        }
        done += n;
    }
    done
}

fn run(rt: &impl Print, input: &mut impl Read, block: &mut [u32], text: &mut [u8]) {
    let n = read_full(input, text);
    let w = work_of(&text[..n]);
    let tally = work::rounds(block, w);
    report(rt, block, tally);
}

fn main(rt: HostRuntime) {
    let mut input = rt.stdin();
    let mut block = [0u32; BLOCK_WORDS];
    let mut text = [0u8; TEXT_BYTES];
    run(&rt, &mut input, &mut block, &mut text);
}
