//! How much a search may do, and into how many parts a question is cut.

ghost use Rattle.std.specs.Prelude.{◌<◌, ◌≤◌};

/// The most threads that may search.
pub const MOST_WORKERS: u32 = 64;

/// The most nodes that a search may handle.
pub const MOST_NODES: u32 = 10_000_000;

/// The most parts of a question.
pub const MOST_PARTS: u32 = 65_536;

/// How many threads search, from 1 to 64, how many nodes they handle, up to 10,000,000, after how
/// many seconds the search ends, and how much memory a search by spans takes at most, in units of
/// 1,048,576 bytes.
#[derive(Clone, Copy, Debug, Drop)]
pub struct Effort {
    pub workers: u32,
    pub budget: u32,
    pub seconds: Option<u64>,
    pub memory: Option<u64>,
    pub ghost some: { 0 < workers },
    pub ghost few: { workers ≤ 64 },
    pub ghost modest: { budget ≤ 10000000 },
}

/// How many parts a question has, from 1 to 65,536.
#[derive(Clone, Copy, Debug, Drop)]
pub struct Count {
    pub parts: u32,
    pub ghost some: { 0 < parts },
    pub ghost few: { parts ≤ 65536 },
}
