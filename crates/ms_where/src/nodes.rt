//! The nodes of metadata of a text, by their numbers, and their fields, such as `scope:`. A token is told by its number in the
//! text, a node by its `Mark`.

ghost use Rattle.std.specs.Prelude.{◌≡◌, ℕ, ◌<◌, ◌≤◌, length, replicate, slice_index, if◌then◌else◌, IfOk, option_copied};
ghost use Rattle.std.specs.Str.{bytes_eq};
ghost use Rattle.ms_lex.specs.Names.{spelling_of};
ghost use Rattle.ms_where_places.specs.Told.{spelling_at};
ghost use Rattle.ms_where.specs.NodeTables.{IsTable};
ghost use Rattle.ms_where.specs.Nodes as spec;

use ms_bits::{Bytes, List, NoMemory};
use ms_lex::{Kind, Token, name_of};
use ms_read_cursor::{decimal, is_digits};
use ms_where_places::{Mark, MarkKind, MarkedText};
use std::alloc::Global;
use std::marker::Model;

/// A text with what stands in it, and where the nodes of its metadata are. Contracts see the text with what stands in it.
#[derive(Drop)]
pub struct Debug<'a> {
    /// The text with its marks.
    marked: MarkedText<'a>,
    /// Of each number below that of the marks, the place of the first node that has it, or the number of the marks.
    nodes: Vec<usize>,
}

impl<'a> Model for Debug<'a> {
    ghost use Rattle.ms_where_places.specs.Told.{Told};

    ghost Value = { Told };

    ghost use Rattle.ms_where.specs.NodeTables.{IsReady};

    ghost view = { λ d. d.marked };

    ghost invariant = { IsReady };
}

/// The number that digits spell, where 64 bits have it.
#[tactic(auto, unfolding(crate::specs::Nodes::small_number))]
fn small_number(digits: &[u8]) -> Option<u64>
    ensures { result ≡ spec.small_number digits.now }
{
    if is_digits(digits) {
        decimal(digits)
    } else {
        None
    }
}

/// The number in the name of a node.
#[tactic(auto, unfolding(crate::specs::Nodes::node_number))]
fn node_number(name: &[u8]) -> Option<u64>
    ensures { result ≡ spec.node_number name.now }
{
    match name {
        [b'!', digits @ ..] => small_number(digits),
        _ => None,
    }
}

/// The number of the node that a mark of this kind, whose first token is this name, is; none if it is no node.
fn number_if(kind: MarkKind, name: &[u8]) -> Option<u64>
    ensures { result ≡ spec.number_if kind (spec.node_number name.now) }
{
    match kind {
        MarkKind::Node => node_number(name),
        _ => None,
    }
}

/// Keeps the place of a mark under a node's number, if there is one and the table has it.
fn keep(nodes: &mut [usize], number: Option<u64>, place: usize)
    ensures { (n : ℕ) → n < length nodes.old → slice_index nodes.new n ≡ (if spec.is_number n number then place else slice_index nodes.old n) }
{
    if let Some(number) = number {
        if number < nodes.len() as u64 {
            nodes[number as usize] = place;
        }
    }
}

/// A table for so many marks in which no number has a node: each has the number of the marks, which is no place.
fn no_nodes(alloc: Global, count: usize) -> Result<Vec<usize>, NoMemory>
    ensures { IfOk result (λ nodes. nodes.items ≡ replicate count count) }
{
    vec![in alloc; count; count]
}

/// Of each number below that of the marks, the place of the first node that has it. From the last mark to the first, so that
/// what is kept last is the first.
#[tactic(auto, using(crate::proofs::NodeTables::started, crate::proofs::NodeTables::kept, crate::proofs::NodeTables::ended))]
fn table_of(alloc: Global, marked: &MarkedText<'_>) -> Result<Vec<usize>, NoMemory>
    ensures { IfOk result (λ nodes. IsTable marked.now nodes.items) }
{
    let marks = marked.marks();
    let mut nodes = no_nodes(alloc, marks.len())?;
    for place in (0..marks.len()).rev() {
        let mark = &marks[place];
        let name = marked.spelling(mark.first as usize);
        keep(&mut nodes, number_if(mark.kind, name), place);
    }
    Ok(nodes)
}

/// The string that a token is, with its escapes undone.
#[tactic(auto, unfolding(ms_lex::specs::Names::name_of))]
fn string_of(alloc: Global, text: &[u8], token: &Token) -> Result<Option<Bytes>, NoMemory>
    requires ordered { token.now.start ≤ token.now.end }
    requires inside { token.now.end ≤ length text.now }
    ensures { IfOk result (λ found. found ≡ spec.string_by token.now.kind (spelling_of text.now token.now)) }
{
    match token.kind {
        Kind::Str => Ok(Some(List::from_vec(name_of(alloc, text, token)?))),
        _ => Ok(None),
    }
}

impl<'a> Debug<'a> {
    /// Finds the nodes of a text's metadata. Takes a time linear in the number of marks.
    pub fn new(alloc: Global, marked: MarkedText<'a>) -> Result<Debug<'a>, NoMemory>
        ensures { IfOk result (λ d. d ≡ marked.entry) }
    {
        let nodes = table_of(alloc, &marked)?;
        Ok(Debug { marked, nodes })
    }

    /// The text with what stands in it.
    pub fn marked(&self) -> &MarkedText<'a>
        ensures { result.now ≡ self.now }
    {
        &self.marked
    }

    /// The bytes of the token with this number, or none where there is no such token.
    fn spelling(&self, token: u32) -> &'a [u8]
        ensures { result.now ≡ spelling_at self.now token }
    {
        self.marked.spelling(token as usize)
    }

    /// Whether a token is spelled so.
    fn is_spelled(&self, token: u32, word: &[u8]) -> bool
        ensures { result ≡ bytes_eq (spelling_at self.now token) word.now }
    {
        self.marked.is_spelled(word, token as usize)
    }

    /// The number of the token after the first one of a mark's tokens that is spelled so: the value of a field, as of `scope:`.
    #[tactic(auto, using(crate::proofs::NodeFields::passed, crate::proofs::NodeFields::met, crate::proofs::NodeFields::ended), unfolding(crate::specs::Nodes::field))]
    pub fn field(&self, word: &[u8], within: &Mark) -> Option<u32>
        ensures { result ≡ spec.field self.now word.now within.now }
    {
        for token in within.first..within.after {
            if self.is_spelled(token, word) {
                return Some(token + 1);
            }
        }
        None
    }

    /// The first node with this number.
    #[tactic(auto, using(crate::proofs::NodeTables::first_at), unfolding(crate::specs::Nodes::node))]
    fn node(&self, number: u64) -> Option<&'a Mark>
        ensures { option_copied result ≡ spec.node self.now number }
    {
        if number < self.nodes.len() as u64 {
            self.marked.mark(self.nodes[number as usize])
        } else {
            None
        }
    }

    /// The node that a token names.
    #[tactic(auto, unfolding(crate::specs::Nodes::node_of))]
    pub(crate) fn node_of(&self, token: u32) -> Option<&'a Mark>
        ensures { option_copied result ≡ spec.node_of self.now token }
    {
        self.node(node_number(self.spelling(token))?)
    }

    /// The node that a field names.
    #[tactic(auto, unfolding(crate::specs::Nodes::node_in))]
    pub(crate) fn node_in(&self, word: &[u8], within: &Mark) -> Option<&'a Mark>
        ensures { option_copied result ≡ spec.node_in self.now word.now within.now }
    {
        self.node_of(self.field(word, within)?)
    }

    /// The number in a field, or else 0.
    #[tactic(auto, unfolding(crate::specs::Nodes::number_in))]
    pub(crate) fn number_in(&self, word: &[u8], within: &Mark) -> u64
        ensures { result ≡ spec.number_in self.now word.now within.now }
    {
        match self.field(word, within) {
            None => 0,
            Some(token) => small_number(self.spelling(token)).unwrap_or(0),
        }
    }

    /// The string that a token is, with its escapes undone.
    #[tactic(auto, using(crate::proofs::NodePlaces::string_there, crate::proofs::NodePlaces::no_string))]
    fn string_at(&self, alloc: Global, token: u32) -> Result<Option<Bytes>, NoMemory>
        ensures { IfOk result (λ found. found ≡ spec.string_at self.now token) }
    {
        match self.marked.token(token as usize) {
            None => Ok(None),
            Some(token) => string_of(alloc, self.marked.text(), token),
        }
    }

    /// The string in a field, with its escapes undone.
    #[tactic(auto, unfolding(crate::specs::Nodes::string_in))]
    pub(crate) fn string_in(
        &self,
        alloc: Global,
        word: &[u8],
        within: &Mark,
    ) -> Result<Option<Bytes>, NoMemory>
        ensures { IfOk result (λ found. found ≡ spec.string_in self.now word.now within.now) }
    {
        match self.field(word, within) {
            None => Ok(None),
            Some(token) => self.string_at(alloc, token),
        }
    }

    /// The name of what a node describes, which this token names, as a variable's.
    #[tactic(auto, unfolding(crate::specs::Nodes::name_in))]
    pub fn name_of_node(&self, alloc: Global, token: u32) -> Result<Option<Bytes>, NoMemory>
        ensures { IfOk result (λ name. name ≡ spec.name_in self.now token) }
    {
        match self.node_of(token) {
            None => Ok(None),
            Some(node) => self.string_in(alloc, b"name:", node),
        }
    }
}
