//! What a mark is: what stands at which tokens of a text.

ghost use Rattle.std.specs.Prelude.{◌≡◌, ◌++◌, ◌<◌, ◌-◌, ◌^◌, IfOk, length};
ghost use Rattle.ms_where_places.specs.Marks as spec;

use ms_bits::NoMemory;
use ms_read_cursor::Tokens;
use ms_text_grammar::Symbol;

/// What marked tokens are.
#[derive(Clone, Copy, Debug, PartialEq, Eq)]
pub enum MarkKind {
    /// A function, from `define` up to its last brace.
    Function,
    /// An instruction, with its result's name and what is attached to it.
    Instruction,
    /// A debug record, as `#dbg_declare(..)`.
    Record,
    /// A node of metadata, from its name on, as `!4 = !{}`.
    Node,
}

/// Successive tokens of a text that are one thing.
#[derive(Clone, Copy, Debug, PartialEq, Eq)]
pub struct Mark {
    /// What they are.
    pub kind: MarkKind,
    /// The number of the first one, counted from 0.
    pub first: u32,
    /// The number of the first one after them.
    pub after: u32,
}

/// What a line is that begins with this symbol. A label is not marked.
pub fn line_kind(symbol: Symbol) -> Option<MarkKind>
    ensures { result ≡ spec.line_kind symbol }
{
    match symbol {
        Symbol::Label | Symbol::NumberedLabel => None,
        Symbol::DebugGroup => Some(MarkKind::Record),
        _ => Some(MarkKind::Instruction),
    }
}

/// What an entity is that begins with this symbol, if it is marked.
pub fn entity_kind(symbol: Symbol) -> Option<MarkKind>
    ensures { result ≡ spec.entity_kind symbol }
{
    match symbol {
        Symbol::Define => Some(MarkKind::Function),
        Symbol::Meta => Some(MarkKind::Node),
        _ => None,
    }
}

/// The number of the next token, counted from 0, of a text of `total` tokens.
pub fn place(total: usize, tokens: &Tokens<'_>) -> u32
    requires { total < 2 ^ 32 }
    ensures { result ≡ total - length tokens.now }
{
    total.saturating_sub(tokens.left()) as u32
}

/// Adds a mark of this kind, if there is one, from token `first` up to but not including token `after`.
pub fn push_mark(
    found: &mut Vec<Mark>,
    kind: Option<MarkKind>,
    first: u32,
    after: u32,
) -> Result<(), NoMemory>
    ensures { IfOk result (λ _. found.new.items ≡ found.old.items ++ spec.marks_of kind first after) }
{
    if let Some(kind) = kind {
        found.push(Mark { kind, first, after })?;
    }
    Ok(())
}
