//! What reads one item, and lists that grow by an item.

ghost use Rattle.std.specs.Prelude.{◌≡◌, ◌++◌, ◌∷◌, [], IfOk};

use crate::cursor::Tokens;
use ms_bits::{List, NoMemory};
use ms_text_grammar::Cause;
use std::alloc::Global;
use std::mem;

/// What reads one item, which is a piece of the grammar.
pub trait Rule {
    /// What the item reads as.
    type Value: Drop;

    ghost use Rattle.ms_text_grammar.specs.Steps.{Rule as Piece};
    ghost use Rattle.ms_read_cursor.specs.Reading.{Gives, run};

    /// The piece of the grammar that it reads.
    ghost piece: { Self → Piece Self.Value };

    /// Reads the item, or says why its next token can't stand.
    fn read(&self, tokens: &mut Tokens<'_>) -> Result<Self::Value, Cause>
        ensures { Gives (run (piece self.now) tokens.old) result tokens.new };
}

/// A list with one item more after the others.
pub fn with_last<T: Drop>(list: List<T>, item: T) -> Result<List<T>, NoMemory>
    ensures { IfOk result (λ l. l ≡ list ++ item ∷ []) }
{
    let mut items = list.into_vec();
    items.push(item)?;
    Ok(List::from_vec(items))
}

/// A list of one item.
pub fn single<T: Drop>(alloc: Global, item: T) -> Result<List<T>, NoMemory>
    ensures { IfOk result (λ l. l ≡ item ∷ []) }
{
    with_last(List::from_vec(Vec::new(alloc)), item)
}

/// Adds an item after the others.
pub fn push<T: Drop>(alloc: Global, list: &mut List<T>, item: T) -> Result<(), NoMemory>
    ensures { IfOk result (λ _. list.new ≡ list.old ++ item ∷ []) }
{
    let items = mem::replace(list, List::from_vec(Vec::new(alloc)));
    *list = with_last(items, item)?;
    Ok(())
}
