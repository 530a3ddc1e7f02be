// Document 01, "Numbers": the limits, each under its own name, and the refusals.
ghost use Rattle.std.specs.Prelude.{◌≡◌};
ghost use Rattle.tables.specs.Numbers.{k_stored, fresh_nodes, node_words, numbers_good};
ghost use Rattle.tables.specs.Refusal.{number_of};

pub const LOWEST_K: u32 = 2;

pub const HIGHEST_K: u32 = 8;

pub const K_FOR_ZERO: u32 = 4;

pub const MOST_PROCESSES: u32 = 32;

pub const MOST_NODES: u32 = 4096;

pub const MOST_RECORDS: u32 = 4096;

pub const INFINITY: u32 = 4294967295;

pub const HEADER_WORDS: u64 = 6;

pub const RECORD_WORDS: u64 = 8;

pub const KEY_ROOM: usize = 8;

// "Record: kind, leaf l, parent p, third, expected pending of p, process, operation, key"
pub const KIND_FIELD: u32 = 0;

pub const L_FIELD: u32 = 1;

pub const P_FIELD: u32 = 2;

pub const THIRD_FIELD: u32 = 3;

pub const EXPECTED_FIELD: u32 = 4;

pub const PROCESS_FIELD: u32 = 5;

pub const OPERATION_FIELD: u32 = 6;

pub const KEY_FIELD: u32 = 7;

// Where the header's used counts stand.
pub const NODES_USED_AT: u64 = 3;

pub const RECORDS_USED_AT: u64 = 5;

// In the order of document 01's table, whose numbers they have.
#[derive(Clone, Copy, Debug, PartialEq, Eq)]
pub enum Refusal {
    MakingNumber = 1,
    TooShort,
    Damaged,
    NoSuchProcess,
    UnknownOperation,
    InfinityGiven,
    Busy,
    Idle,
    ListTooShort,
    LowAboveHigh,
    NotInForm,
}

impl Refusal {
    pub fn number(self) -> u32
        ensures { result ≡ number_of self }
    {
        self as u32
    }
}

pub fn k_stored(k: u32) -> u32
    ensures { result ≡ k_stored k }
{
    if k == 0 { K_FOR_ZERO } else { k }
}

// 2k+1 stands under two names: document 01 has it for the nodes of a fresh tree and for the words of a node.
pub fn fresh_nodes(k: u32) -> u64
    ensures { result ≡ fresh_nodes k }
{
    2 * u64::from(k) + 1
}

pub fn node_words(k: u8) -> u64
    ensures { result ≡ node_words k }
{
    2 * u64::from(k) + 1
}

// The numbers that a making is given.
#[derive(Clone, Copy, Debug, PartialEq, Eq)]
pub struct Making {
    pub k: u32,
    pub processes: u32,
    pub nodes: u32,
    pub records: u32,
}

impl Making {
    #[tactic(auto, unfolding(crate::specs::Choice::both, crate::specs::Numbers::numbers_good))]
    pub fn numbers_good(self) -> bool
        ensures { result ≡ numbers_good self.k self.processes self.nodes self.records }
    {
        (LOWEST_K..=HIGHEST_K).contains(&self.k)
            && (1..=MOST_PROCESSES).contains(&self.processes)
            && fresh_nodes(self.k) <= u64::from(self.nodes)
            && self.nodes <= MOST_NODES
            && (1..=MOST_RECORDS).contains(&self.records)
    }
}
