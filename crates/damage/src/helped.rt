// "A step checks .. from 6 on, the record helped": a replace at 6 to 8, a prune at 9 to 14.
ghost use Rattle.std.specs.Prelude.{◌≡◌};
ghost use Rattle.damage.specs.Helped.{owner_good, third_good, places_good, expected_good, record_good, kind_at, helped_good};

use nodes::pending::Pending;
use nodes::{node, pending};
use process::Process;
use tables::header::Header;
use tables::numbers;

fn owner_good(block: &[u32], h: Header, number: u32) -> bool
    ensures { result ≡ owner_good block.now h number }
{
    let operation = h.record_word(block, number, numbers::OPERATION_FIELD);
    let key = h.record_word(block, number, numbers::KEY_FIELD);
    let owner = h.record_word(block, number, numbers::PROCESS_FIELD);
    process::INSERT <= operation
        && operation <= process::DELETE
        && key < numbers::INFINITY
        && 1 <= owner
        && owner <= u32::from(h.processes)
}

fn third_good(block: &[u32], h: Header, kind: u32, number: u32) -> bool
    ensures { result ≡ third_good block.now h kind number }
{
    let third = h.record_word(block, number, numbers::THIRD_FIELD);
    if kind == pending::REPLACE_KIND {
        let p = h.record_word(block, number, numbers::P_FIELD);
        node::below_of(block, h, p, third).is_some()
    } else {
        node::is_internal(node::kin_of(block, h, third))
    }
}

fn places_good(block: &[u32], h: Header, kind: u32, number: u32) -> bool
    ensures { result ≡ places_good block.now h kind number }
{
    let p = h.record_word(block, number, numbers::P_FIELD);
    let l = h.record_word(block, number, numbers::L_FIELD);
    node::is_internal(node::kin_of(block, h, p))
        && node::is_leaf(node::kin_of(block, h, l))
        && third_good(block, h, kind, number)
}

fn expected_good(block: &[u32], h: Header, number: u32) -> bool
    ensures { result ≡ expected_good block.now h number }
{
    let seen = Pending::from(h.record_word(block, number, numbers::EXPECTED_FIELD));
    process::is_clean(seen) && pending::pending_good(block, h, seen)
}

fn record_good(block: &[u32], h: Header, kind: u32, number: u32) -> bool
    ensures { result ≡ record_good block.now h kind number }
{
    pending::record_of_kind(block, h, number, kind)
        && owner_good(block, h, number)
        && places_good(block, h, kind, number)
        && expected_good(block, h, number)
}

fn kind_at(point: u32) -> u32
    ensures { result ≡ kind_at point }
{
    if point <= 8 {
        pending::REPLACE_KIND
    } else {
        pending::PRUNE_KIND
    }
}

pub fn helped_good(block: &[u32], h: Header, q: Process) -> bool
    ensures { result ≡ helped_good block.now h q }
{
    q.point < 6 || record_good(block, h, kind_at(q.point), q.helped)
}
