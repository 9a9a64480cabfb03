//! The table of exit codes: what the program says by its status.

/// What the process's status says, by its number.
#[derive(Clone, Copy, Debug, PartialEq, Eq)]
pub enum Status {
    /// Done, and nothing below is so.
    Done = 0,
    /// The words are no command.
    BadWords = 2,
    /// The run trapped, and has no report.
    Trapped = 3,
    /// The run's steps were used up, and it has no report.
    Spent = 4,
    /// The module is refused.
    Refused = 5,
    /// A file could not be read.
    FileFault = 6,
    /// A sink failed.
    FailedPut = 7,
    /// Memory ran out.
    NoMemory = 8,
    /// A file has more bytes than its limit.
    TooLong = 9,
    /// The system doesn't give the words, as where one isn't UTF-8. The top call never returns it.
    NoWords = 10,
    /// The run has a report.
    Reported = 77,
}
