// Listing and range of document 01: single calls, lent the block without the process row.
// Every public function is total: it asks nothing of its caller and states its result, and every lent word, on every input.
#![tactic(auto)]

ghost use Rattle.std.specs.Prelude.{◌≡◌};
ghost use Rattle.walk.specs.Calls.{list_out, list_of, part_of, range_of};
ghost use Rattle.walk.specs.Parts.{list_good, range_good, filled_of};

use tables::header::Header;
use tables::numbers::Refusal;
use tables::{header, numbers};

// The count is known before the first key is written: a refused listing has written nothing.
#[tactic(auto, using(crate::proofs::Calling::tests), unfolding(tables::specs::Choice::pick))]
fn list_good(block: &[u32], h: Header, list: &mut [u32]) -> Result<u32, Refusal>
    ensures { list_out result list.new ≡ list_good block.now h list.old }
{
    let m = meter::measure_all(block, h, 0, 0);
    if !m.sound {
        return Err(Refusal::Damaged);
    }
    if list.len() < m.count as usize {
        return Err(Refusal::ListTooShort);
    }
    fill::fill_all(block, h, list);
    Ok(m.count)
}

// "The listing fills the list from its front and answers the count of keys, or its refusal."
pub fn listing(block: &[u32], list: &mut [u32]) -> Result<u32, Refusal>
    ensures { list_out result list.new ≡ list_of block.now list.old }
{
    let h = header::read_header(block)?;
    list_good(block, h, list)
}

// A listing that is refused has filled no word.
fn filled_of(listed: Result<u32, Refusal>) -> u32
    ensures { result ≡ filled_of listed }
{
    listed.unwrap_or(0)
}

// "a twin call does the same and hands back the filled part of the caller's list, empty if refused": the list's front.
// A list that is handed on is spent, and no clause can speak of its other words at exit; all that is done to them is `listing`'s to say.
pub fn listing_part<'a>(block: &[u32], list: &'a mut [u32]) -> &'a mut [u32]
    ensures { (result.now ≡ part_of block.now list.old) × (result.ref_ptr ≡ list.entry.ref_ptr) }
{
    let n = filled_of(listing(block, list)) as usize;
    &mut list[..n]
}

#[tactic(auto, using(crate::proofs::Calling::tests), unfolding(tables::specs::Choice::pick))]
fn range_good(block: &[u32], h: Header, low: u32, high: u32) -> Result<bool, Refusal>
    ensures { result ≡ range_good block.now h low high }
{
    if low == numbers::INFINITY || high == numbers::INFINITY {
        return Err(Refusal::InfinityGiven);
    }
    if high < low {
        return Err(Refusal::LowAboveHigh);
    }
    let m = meter::measure_all(block, h, low, high);
    if !m.sound {
        return Err(Refusal::Damaged);
    }
    Ok(!m.found)
}

// "Clear-of-range answers yes exactly when no key of the set lies from low to high, ends included."
pub fn range(block: &[u32], low: u32, high: u32) -> Result<bool, Refusal>
    ensures { result ≡ range_of block.now low high }
{
    let h = header::read_header(block)?;
    range_good(block, h, low, high)
}
