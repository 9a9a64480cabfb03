//! The two forms of a text.

/// Which texts are read.
#[derive(Clone, Copy, Debug, PartialEq, Eq)]
pub enum Form {
    /// A program as a compiler writes it: no name begins with `__msan`, and no instruction carries `!nosanitize`.
    Plain,
    /// A program with what the pass inserts: the reserved names of the runtime and of inserted results may stand, and
    /// `!nosanitize` marks an inserted instruction. Its limits are larger. Every text of the other form is one of this.
    Instrumented,
}
