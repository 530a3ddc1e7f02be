// The bench program of document 01: it reads the input, cuts it into lines, has each done, and writes what is to be printed.
#![tactic(auto)]

ghost use Rattle.std.specs.Prelude.{◌≡◌, ◌≤◌, length};

use session::line::Session;
use session::{cut, line, text};
use std::io::Read;

// The longest block within the bench's limits, that of k = 8, has 6 + 512·17 + 8·512 + 8·((512 − 17) div 8) = 13,294 words.
const BLOCK_WORDS: usize = 13312;

// 512 nodes of at most 7 keys.
const LIST_WORDS: usize = 3584;

// A count line and 3,584 key lines of at most 15 bytes.
const TEXT_BYTES: usize = 65536;

// One byte more than the longest line: a line that fills it is not in its form, whatever follows.
const LINE_BYTES: usize = 4097;

const PIECE_BYTES: usize = 65536;

// The tables, the buffers, and the session. Of the line that is being read `kept` bytes are held.
#[derive(Drop)]
struct Bench {
    block: [u32; BLOCK_WORDS],
    list: [u32; LIST_WORDS],
    out: [u8; TEXT_BYTES],
    held: [u8; LINE_BYTES],
    kept: usize,
    session: Session,
    ghost within: { kept ≤ length held },
}

impl Bench {
    // The line that is held is done, and what it says is written. A write that fails is passed over: the lines behind it are done all the same.
    fn take_line(&mut self, rt: &impl Print)
        ensures { self.new.kept ≡ 0 }
    {
        let asked = script::read::read_line(&self.held[..self.kept]);
        self.kept = 0;
        let turn = line::act(&mut self.block, &mut self.list, self.session, asked);
        self.session = turn.session;
        let n = text::put_said(&mut self.out, turn.said, &self.list);
        let _ = rt.write_all(&self.out[..n]);
    }

    // A part of a line is held, as far as there is room.
    fn hold(&mut self, part: &[u8]) {
        self.kept = print::write::put_bytes(&mut self.held, self.kept, part);
    }

    // A piece of the input: each line that ends in it is taken, and the start of the next is held.
    fn take_piece(&mut self, rt: &impl Print, piece: &[u8]) {
        // A cursor and no `split`: that would cut again what `line_end` is proved to cut, and not tell a line that ends from one that goes on.
        let mut at = 0;
        while at < piece.len() {
            let end = cut::line_end(piece, at);
            self.hold(&piece[at..end]);
            if end < piece.len() {
                self.take_line(rt);
            }
            at = end + 1;
        }
    }

    // The end of the input: a line that has begun ends there, and the run with it.
    fn take_rest(&mut self, rt: &impl Print)
        ensures { self.new.kept ≡ 0 }
    {
        if self.kept > 0 {
            self.take_line(rt);
        }
        self.session = line::finish(self.session);
    }
}

// One line of the library's, as `speed` has it too: the two programs share no crate of their own.
// How many bytes one read puts at the front of the piece; none where it fails, as at the end of the input.
fn read_some(input: &mut impl Read, piece: &mut [u8]) -> usize
    ensures { result ≤ length piece.new }
{
    input.read(piece).unwrap_or(0)
}

// The run ends with the input, or with a first line that is refused; the loop's budget of turns is one that no run uses up.
fn run(rt: &impl Print, input: &mut impl Read, bench: &mut Bench, piece: &mut [u8]) {
    for _ in 0..u64::MAX {
        if line::is_over(bench.session) {
            break;
        }
        match read_some(input, piece) {
            0 => bench.take_rest(rt),
            n => bench.take_piece(rt, &piece[..n]),
        }
    }
}

fn main(rt: HostRuntime) {
    let mut input = rt.stdin();
    let mut bench = Bench {
        block: [0; BLOCK_WORDS],
        list: [0; LIST_WORDS],
        out: [0; TEXT_BYTES],
        held: [0; LINE_BYTES],
        kept: 0,
        session: line::begin(),
    };
    let mut piece = [0; PIECE_BYTES];
    run(&rt, &mut input, &mut bench, &mut piece);
}
