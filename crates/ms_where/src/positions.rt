//! Positions in the source (LLVM Language Reference, "Specialized Metadata Nodes": `DILocation`, `DILexicalBlock`,
//! `DISubprogram`, `DIFile`), and the lines that show them.

ghost use Rattle.std.specs.Prelude.{◌≡◌, ◌∷◌, ◌++◌, decimal, map, IfOk, option_copied};
ghost use Rattle.ms_where.specs.Positions as spec;

use crate::nodes::Debug;
use ms_bits::{Bytes, NoMemory};
use ms_where_places::Mark;
use ms_write_values::push_number;
use std::alloc::Global;

/// How many scopes, and how many inlined calls, are followed at most, so that a cycle of nodes ends.
const MOST: u32 = 64;

/// A position in the source.
#[derive(Drop)]
pub struct Position {
    /// The name of the file.
    pub file: Bytes,
    /// The line, counted from 1.
    pub line: u64,
    /// The column, counted from 1, or 0 where it isn't known.
    pub column: u64,
}

/// A byte, or a question mark for one that isn't printed.
#[tactic(auto, unfolding(crate::specs::Positions::printed))]
fn printed(byte: u8) -> u8
    ensures { result ≡ spec.printed byte }
{
    if byte < 32 || byte == 127 { b'?' } else { byte }
}

/// Adds bytes to a text, with a question mark for each that isn't printed.
pub fn push_printed(out: &mut Vec<u8>, bytes: &[u8]) -> Result<(), NoMemory>
    ensures { IfOk result (λ _. out.new.items ≡ out.old.items ++ map spec.printed bytes.now) }
{
    for byte in bytes {
        out.push(printed(*byte))?;
    }
    Ok(())
}

/// Adds a column, if it is known.
fn push_column(out: &mut Vec<u8>, column: u64) -> Result<(), NoMemory>
    ensures { IfOk result (λ _. out.new.items ≡ out.old.items ++ spec.column_text column) }
{
    if column == 0 {
        return Ok(());
    }
    out.push(b':')?;
    push_number(out, column)
}

/// Adds a line and a column, each after a colon.
fn push_place(out: &mut Vec<u8>, line: u64, column: u64) -> Result<(), NoMemory>
    ensures { IfOk result (λ _. out.new.items ≡ out.old.items ++ 58 ∷ decimal line ++ spec.column_text column) }
{
    out.push(b':')?;
    push_number(out, line)?;
    push_column(out, column)
}

/// Adds a position.
#[tactic(auto, unfolding(crate::specs::Positions::position_text))]
fn push_position(out: &mut Vec<u8>, position: &Position) -> Result<(), NoMemory>
    ensures { IfOk result (λ _. out.new.items ≡ out.old.items ++ spec.position_text position.now) }
{
    push_printed(out, position.file.as_slice())?;
    push_place(out, position.line, position.column)
}

/// Adds a remark on a position, if there is one.
fn push_remark(out: &mut Vec<u8>, remark: Option<&[u8]>) -> Result<(), NoMemory>
    ensures { IfOk result (λ _. out.new.items ≡ out.old.items ++ spec.remark_text (option_copied remark.entry)) }
{
    match remark {
        None => Ok(()),
        Some(remark) => {
            out.extend_from_slice(b": ")?;
            push_printed(out, remark)
        }
    }
}

/// Adds a position in a line of its own, with a remark on it, if there is one.
#[tactic(auto, unfolding(crate::specs::Positions::position_line))]
fn push_position_line(
    out: &mut Vec<u8>,
    remark: Option<&[u8]>,
    position: &Position,
) -> Result<(), NoMemory>
    ensures { IfOk result (λ _. out.new.items ≡ out.old.items ++ spec.position_line (option_copied remark.entry) position.now) }
{
    out.extend_from_slice(b"    ")?;
    push_position(out, position)?;
    push_remark(out, remark)?;
    out.push(b'\n')?;
    Ok(())
}

impl<'a> Debug<'a> {
    /// The file of a scope: its own, or that of the nearest scope around it that has one.
    #[tactic(auto, using(crate::proofs::Scopes::whole, crate::proofs::Scopes::at_none, crate::proofs::Scopes::at_end, crate::proofs::Scopes::has_file, crate::proofs::Scopes::goes_on))]
    fn file_of(&self, scope: Option<&'a Mark>) -> Option<&'a Mark>
        ensures { option_copied result ≡ spec.file_of self.now (option_copied scope.entry) }
    {
        let mut scope = scope;
        for _ in 0..MOST {
            let node = scope?;
            if self.field(b"file:", node).is_some() {
                return self.node_in(b"file:", node);
            }
            scope = self.node_in(b"scope:", node);
        }
        None
    }

    /// The name of the file of a scope.
    #[tactic(auto, unfolding(crate::specs::Positions::file_name_of))]
    fn file_name_of(
        &self,
        alloc: Global,
        scope: Option<&'a Mark>,
    ) -> Result<Option<Bytes>, NoMemory>
        ensures { IfOk result (λ name. name ≡ spec.file_name_of self.now (option_copied scope.entry)) }
    {
        match self.file_of(scope) {
            None => Ok(None),
            Some(file) => self.string_in(alloc, b"filename:", file),
        }
    }

    /// Whether a node is a location with a line.
    #[tactic(auto, unfolding(crate::specs::Positions::is_location))]
    fn is_location(&self, node: &Mark) -> bool
        ensures { result ≡ spec.is_location self.now node.now }
    {
        self.field(b"!DILocation", node).is_some() && self.number_in(b"line:", node) != 0
    }

    /// The position of a location that has a line and a file.
    #[tactic(auto, unfolding(crate::specs::Positions::position))]
    fn position(&self, alloc: Global, node: &Mark) -> Result<Option<Position>, NoMemory>
        ensures { IfOk result (λ found. found ≡ spec.position self.now node.now) }
    {
        if !self.is_location(node) {
            return Ok(None);
        }
        match self.file_name_of(alloc, self.node_in(b"scope:", node))? {
            None => Ok(None),
            Some(file) => Ok(Some(Position {
                file,
                line: self.number_in(b"line:", node),
                column: self.number_in(b"column:", node),
            })),
        }
    }

    /// Adds the line of a location's own position, if it has one, with a remark.
    #[tactic(auto, unfolding(crate::specs::Positions::line_of))]
    fn push_line(
        &self,
        out: &mut Vec<u8>,
        remark: Option<&[u8]>,
        node: &Mark,
    ) -> Result<(), NoMemory>
        ensures { IfOk result (λ _. out.new.items ≡ out.old.items ++ spec.line_of self.now (option_copied remark.entry) node.now) }
    {
        let alloc = *out.allocator();
        match self.position(alloc, node)? {
            None => Ok(()),
            Some(position) => push_position_line(out, remark, &position),
        }
    }

    /// Adds the lines of the calls that something was inlined at, innermost first.
    #[tactic(auto, using(crate::proofs::Calls::whole))]
    fn push_calls(&self, out: &mut Vec<u8>, call: Option<&'a Mark>) -> Result<(), NoMemory>
        ensures { IfOk result (λ _. out.new.items ≡ out.old.items ++ spec.call_lines self.now (option_copied call.entry)) }
    {
        let mut call = call;
        for _ in 0..MOST {
            match call {
                None => return Ok(()),
                Some(node) => {
                    self.push_line(out, Some(b"inlined here"), node)?;
                    call = self.node_in(b"inlinedAt:", node);
                }
            }
        }
        Ok(())
    }

    /// Adds the lines of the location that a token names, as `!12`: its own position, with the name of the variable that is
    /// declared there where one is given, and then the calls that it was inlined at. Each begins with four blanks.
    #[tactic(auto, unfolding(crate::specs::Positions::location_lines))]
    pub fn push_location(
        &self,
        out: &mut Vec<u8>,
        name: Option<&[u8]>,
        token: u32,
    ) -> Result<(), NoMemory>
        ensures { IfOk result (λ _. out.new.items ≡ out.old.items ++ spec.location_lines self.now (option_copied name.entry) token) }
    {
        match self.node_of(token) {
            None => Ok(()),
            Some(location) => {
                self.push_line(out, name, location)?;
                self.push_calls(out, self.node_in(b"inlinedAt:", location))
            }
        }
    }
}
