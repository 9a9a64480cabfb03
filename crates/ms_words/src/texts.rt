//! Copies of words, which take memory.
ghost use Rattle.std.specs.Prelude.{◌≡◌, IfOk, map};

use ms_bits::{NoMemory, Text};
use std::alloc::Global;

/// An equal text.
pub fn copy_text(alloc: Global, text: &str) -> Result<Text, NoMemory>
    ensures { IfOk result (λ t. t ≡ text.now) }
{
    Ok(Text::from_string(String::from_str(alloc, text)?))
}

/// Equal texts, in order.
pub fn copy_texts(alloc: Global, texts: &[&str]) -> Result<Vec<Text>, NoMemory>
    ensures { IfOk result (λ ts. ts.items ≡ map (λ t. t.now) texts.now) }
{
    let mut copies = Vec::new(alloc);
    for text in texts {
        copies.push(copy_text(alloc, text)?)?;
    }
    Ok(copies)
}
