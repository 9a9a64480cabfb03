//! What a run is given and what it returns.

use ms_bits::{Bytes, List, Trap};

/// What a run is given beside its module.
#[derive(Debug, PartialEq, Eq, Drop)]
pub struct Setup {
    /// The bytes of the standard input.
    pub input: Bytes,
    /// The bytes that uninitialised memory and undefined operands are made of. The k-th uninitialised byte of
    /// a run, counted from 0, is the byte at k modulo the length, so it has at least one byte.
    pub fill: Bytes,
    /// The greatest number of steps. Each unmarked instruction is one, but for a phi, which belongs to the
    /// step of the branch that leads to it.
    pub steps: u64,
    /// The number of reports at which the run ends, from 1 on.
    pub reports: u32,
    /// Whether each use is reported once: one that has the site, kind and part of an earlier report isn't reported, and
    /// doesn't count for `reports`.
    pub once: bool,
}

/// How a run ends.
#[derive(Clone, Copy, Debug, PartialEq, Eq)]
pub enum End {
    /// `main` returned this number, or `exit` was called with it.
    Exit(u32),
    /// A trap at the site of the instruction that caused it.
    Trap { kind: Trap, site: u32 },
    /// The number of reports reached the setup's limit.
    Reported,
    /// The setup's steps were used up.
    Spent,
}

/// One link of the way from an origin to its root.
#[derive(Clone, Copy, Debug, PartialEq, Eq)]
pub enum Origin {
    /// The root of this number, which ends the way.
    Root { number: u32 },
    /// A write at a site of a value with uninitialised bits, and the origin that they had before it.
    Chain { old: u32, site: u32 },
}

/// One use of uninitialised bits.
#[derive(Debug, PartialEq, Eq, Drop)]
pub struct Report {
    /// The site of the instruction that uses them.
    pub site: u32,
    /// The kind of use: one of `ms_runs_uses::kinds`, or another number where inserted code of a module says so.
    pub kind: u32,
    /// Which operand or argument, counted from 0; of a range of bytes, the distance of the reported byte from
    /// its start.
    pub part: u32,
    /// The width of what was checked, in bits; 8 for a byte of memory.
    pub width: u32,
    /// A 1 for each uninitialised bit; never 0.
    pub mask: u64,
    /// The origin of these bits: the number of a root, or a greater one of a write on their way.
    pub origin: u32,
    /// The way from `origin` to its root; empty where the origin is neither a root nor a write.
    pub chain: List<Origin>,
}

/// The calls that stand where a use is reported.
#[derive(Debug, PartialEq, Eq, Drop)]
pub struct Calls {
    /// Their sites, the innermost first; none in `main`, and in the first function of a thread.
    pub sites: List<u32>,
    /// The site of the call that made the thread; 0 in that of `main`.
    pub started: u32,
}

/// A place where uses lost an uninitialised bit without a report.
#[derive(Clone, Copy, Debug, PartialEq, Eq)]
pub struct BlindPlace {
    /// The site of the instruction.
    pub site: u32,
    /// How many such uses the run made there, from 1 on.
    pub count: u64,
}

/// What a run returns.
#[derive(Debug, PartialEq, Eq, Drop)]
pub struct RunResult {
    /// The bytes of the standard output.
    pub output: Bytes,
    pub end: End,
    /// In the order in which they came.
    pub reports: List<Report>,
    /// How many uses lost an uninitialised bit without a report, so that the run may say less than it should.
    pub blind: u64,
}
