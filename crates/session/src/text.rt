// What a line has printed, as bytes in a lent buffer.
ghost use Rattle.std.specs.Prelude.{◌≡◌, take};
ghost use Rattle.print.specs.Writing.{out, written};
ghost use Rattle.session.specs.Text.{key_lines, said_text};

use crate::line::Said;
use print::write;
use tables::numbers;

// "keys follow ascending"
fn put_keys(buffer: &mut [u8], at: usize, keys: &[u32]) -> usize
    ensures { out result buffer.new ≡ written buffer.old at (key_lines keys.now) }
{
    let mut next = at;
    for &key in keys {
        next = write::write_key(buffer, next, key);
    }
    next
}

// A list from its front, as far as it reaches.
fn put_front(buffer: &mut [u8], at: usize, list: &[u32], count: u32) -> usize
    ensures { out result buffer.new ≡ written buffer.old at (key_lines (take count list.now)) }
{
    put_keys(buffer, at, &list[..list.len().min(count as usize)])
}

// From the buffer's front, as far as the buffer reaches.
#[tactic(auto, using(crate::proofs::Texts::saids))]
pub fn put_said(buffer: &mut [u8], said: Said, list: &[u32]) -> usize
    ensures { out result buffer.new ≡ written buffer.old 0 (said_text said list.now) }
{
    match said {
        Said::Nothing => 0,
        Said::Answered(a) => write::write_answer(buffer, 0, a),
        Said::Refused(e) => write::write_refused(buffer, 0, e.number()),
        Said::Listed(c) => {
            let next = write::write_count(buffer, 0, c);
            put_front(buffer, next, list, c.count)
        }
    }
}
