// "clean, replace, prune or mark, together with a record number": the pending of a node, and its word both ways.
ghost use Rattle.std.specs.Prelude.{◌≡◌};
ghost use Rattle.nodes.specs.Pending.{record_in_use, record_of_kind, pending_good};

use tables::header::Header;
use tables::numbers;

// Numbers and no enum: a record's kind is a word of the block, and `record_of_kind` speaks of every one.
pub const REPLACE_KIND: u32 = 1;

pub const PRUNE_KIND: u32 = 2;

#[derive(Clone, Copy, Debug, PartialEq, Eq)]
pub enum Pending {
    Clean(u32),
    Replace(u32),
    Prune(u32),
    Mark(u32),
}

impl From<u32> for Pending {
    ghost use Rattle.nodes.specs.Pending.{pending_of};

    ghost from_gives = { λ word pending. pending ≡ pending_of word };

    fn from(word: u32) -> Pending
        ensures { result ≡ pending_of word }
    {
        let record = word / 4;
        match word % 4 {
            0 => Pending::Clean(record),
            1 => Pending::Replace(record),
            2 => Pending::Prune(record),
            _ => Pending::Mark(record),
        }
    }
}

// In 64 bits, since a value that never stood in a block may have any record number.
impl From<Pending> for u64 {
    ghost use Rattle.nodes.specs.Pending.{word_of};

    ghost from_gives = { λ pending word. word ≡ word_of pending };

    fn from(pending: Pending) -> u64
        ensures { result ≡ word_of pending }
    {
        match pending {
            Pending::Clean(record) => 4 * u64::from(record),
            Pending::Replace(record) => 4 * u64::from(record) + 1,
            Pending::Prune(record) => 4 * u64::from(record) + 2,
            Pending::Mark(record) => 4 * u64::from(record) + 3,
        }
    }
}

pub fn record_in_use(h: Header, number: u32) -> bool
    ensures { result ≡ record_in_use h number }
{
    1 <= number && number <= u32::from(h.recordsused)
}

pub fn record_of_kind(block: &[u32], h: Header, number: u32, kind: u32) -> bool
    ensures { result ≡ record_of_kind block.now h number kind }
{
    record_in_use(h, number) && h.record_word(block, number, numbers::KIND_FIELD) == kind
}

pub fn pending_good(block: &[u32], h: Header, pending: Pending) -> bool
    ensures { result ≡ pending_good block.now h pending }
{
    match pending {
        Pending::Clean(record) => record <= u32::from(h.recordsused),
        Pending::Replace(record) => record_of_kind(block, h, record, REPLACE_KIND),
        Pending::Prune(record) | Pending::Mark(record) => {
            record_of_kind(block, h, record, PRUNE_KIND)
        }
    }
}
