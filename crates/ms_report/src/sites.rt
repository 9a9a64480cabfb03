//! How a line names a site: its number, and the function that has it.
ghost use Rattle.std.specs.{Prelude.{◌≡◌, ◌++◌, IfOk}, Option.{option_copied}};
ghost use Rattle.ms_ir.specs.Places.{HasSmallNumbers};
ghost use Rattle.ms_report.specs.RunTexts.{function_of, function_text, site_text};

use ms_bits::NoMemory;
use ms_ir::{Module, Name, place_of};
use ms_write_values::{push_name, push_number};

/// The name of the function in which the instruction with a site stands, where the module has the site.
fn function_at(m: &Module, site: u32) -> Option<&Name>
    requires { HasSmallNumbers m.now }
    ensures { option_copied result ≡ function_of m.now site }
{
    match place_of(m, site) {
        None => None,
        Some(place) => match m.funcs.as_slice().get(place.func as usize) {
            None => None,
            Some(func) => Some(&func.name),
        },
    }
}

/// Adds a function's name after its sign, or a question mark where there is none.
fn push_function(text: &mut Vec<u8>, name: Option<&Name>) -> Result<(), NoMemory>
    ensures { IfOk result (λ _. text.new.items ≡ text.old.items ++ function_text (option_copied name.entry)) }
{
    match name {
        None => {
            text.push(b'?')?;
            Ok(())
        }
        Some(name) => {
            text.push(b'@')?;
            push_name(text, name)
        }
    }
}

/// Adds the name of the function in which the instruction with a site stands.
pub fn push_function_of(text: &mut Vec<u8>, m: &Module, site: u32) -> Result<(), NoMemory>
    requires { HasSmallNumbers m.now }
    ensures { IfOk result (λ _. text.new.items ≡ text.old.items ++ function_text (function_of m.now site)) }
{
    push_function(text, function_at(m, site))
}

/// Adds where a site is: its number, and the function that has it.
pub fn push_site(text: &mut Vec<u8>, m: &Module, site: u32) -> Result<(), NoMemory>
    requires { HasSmallNumbers m.now }
    ensures { IfOk result (λ _. text.new.items ≡ text.old.items ++ site_text m.now site) }
{
    text.extend_from_slice(b" at site ")?;
    push_number(text, site as u64)?;
    text.extend_from_slice(b" in ")?;
    push_function_of(text, m, site)
}
