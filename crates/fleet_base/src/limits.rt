//! The limits of maps, plans, reports and files, by name. Each is the greatest that is allowed.

/// Rows or columns of a map.
pub const SPAN: u32 = 4096;

/// Robots of a plan.
pub const ROBOTS: u32 = 256;

/// The number of a listed tick of a plan; the first one is 0.
pub const LAST_TICK: u32 = 4096;

/// Visits of all robots together.
pub const VISITS: u32 = 65536;

/// Pairs of a plan.
pub const PAIRS: u32 = 1_048_576;

/// Ticks that a move may be late.
pub const DELAY: u64 = 1_000_000;

/// The tick of a report.
pub const MOMENT: u64 = 1_000_000_000_000;

/// Accepted reports.
pub const REPORTS: u64 = 1 << 62;

/// Expanded nodes of a search.
pub const BUDGET: u32 = 4096;

/// Bytes of a report line.
pub const LINE: usize = 256;

/// Bytes of a map or a plan.
pub const PAPER: u64 = 1 << 25;

/// Bytes of a journal's side.
pub const SIDE: u64 = 1 << 30;

/// Bytes of a session's input.
pub const INPUT: u64 = 1 << 32;
