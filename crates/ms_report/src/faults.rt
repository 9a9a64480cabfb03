//! The lines that say why a module isn't valid, one for each cause, with the cause's number: 9 to 17.
ghost use Rattle.std.specs.Prelude.{◌≡◌, ◌++◌, true, is_some, IfOk, codes, decimal};
ghost use Rattle.ms_check.specs.Faults.{fault_of};
ghost use Rattle.ms_report.specs.FaultTexts.{refused_line, signed, at_site, spaced, fault_line};
ghost use Rattle.ms_report.specs.WithLines.{fault_site};

use crate::lines::{begin_line, push_cause};
use ms_bits::NoMemory;
use ms_check::CheckError;
use ms_ir::Name;
use ms_write_values::{push_name, push_number};

/// Adds a name after its sign: `@` where it is global, else `%`.
fn push_signed(text: &mut Vec<u8>, global: bool, name: &Name) -> Result<(), NoMemory>
    ensures { IfOk result (λ _. text.new.items ≡ text.old.items ++ signed (record { global = global; name = name.now })) }
{
    text.push(if global { b'@' } else { b'%' })?;
    push_name(text, name)
}

/// Adds `at site`, and the site's number.
fn push_site(text: &mut Vec<u8>, site: u32) -> Result<(), NoMemory>
    ensures { IfOk result (λ _. text.new.items ≡ text.old.items ++ at_site site) }
{
    text.extend_from_slice(b" at site ")?;
    push_number(text, site as u64)
}

/// Adds numbers, each after a space.
fn push_spaced(text: &mut Vec<u8>, numbers: &[u32]) -> Result<(), NoMemory>
    ensures { IfOk result (λ _. text.new.items ≡ text.old.items ++ spaced numbers.now) }
{
    for number in numbers {
        text.push(b' ')?;
        push_number(text, *number as u64)?;
    }
    Ok(())
}

/// Adds the line of a cause, with its number, that is about a name.
fn push_name_line(
    text: &mut Vec<u8>,
    number: u8,
    cause: &[u8],
    global: bool,
    name: &Name,
) -> Result<(), NoMemory>
    ensures { IfOk result (λ _. text.new.items ≡ text.old.items ++ refused_line number (cause.now ++ signed (record { global = global; name = name.now }))) }
{
    begin_line(text, number)?;
    text.extend_from_slice(cause)?;
    push_signed(text, global, name)?;
    text.push(b'\n')?;
    Ok(())
}

/// Adds the line of a cause, with its number, that is about a site.
fn push_site_line(text: &mut Vec<u8>, number: u8, cause: &[u8], site: u32) -> Result<(), NoMemory>
    ensures { IfOk result (λ _. text.new.items ≡ text.old.items ++ refused_line number (cause.now ++ at_site site)) }
{
    begin_line(text, number)?;
    text.extend_from_slice(cause)?;
    push_site(text, site)?;
    text.push(b'\n')?;
    Ok(())
}

/// Adds the line for a name that is used and not defined.
fn push_unknown(text: &mut Vec<u8>, site: u32, global: bool, name: &Name) -> Result<(), NoMemory>
    ensures { IfOk result (λ _. text.new.items ≡ text.old.items ++ refused_line 10 (codes "unknown " ++ signed (record { global = global; name = name.now }) ++ at_site site)) }
{
    begin_line(text, 10)?;
    text.extend_from_slice(b"unknown ")?;
    push_signed(text, global, name)?;
    push_site(text, site)?;
    text.push(b'\n')?;
    Ok(())
}

/// Adds the line for an operand of a site's instruction that has another type than it should.
fn push_type(text: &mut Vec<u8>, site: u32, operand: u32) -> Result<(), NoMemory>
    ensures { IfOk result (λ _. text.new.items ≡ text.old.items ++ refused_line 11 (codes "type" ++ at_site site ++ codes ", operand " ++ decimal operand)) }
{
    begin_line(text, 11)?;
    text.extend_from_slice(b"type")?;
    push_site(text, site)?;
    text.extend_from_slice(b", operand ")?;
    push_number(text, operand as u64)?;
    text.push(b'\n')?;
    Ok(())
}

/// Adds a path, as the numbers of its blocks.
fn push_blocks(text: &mut Vec<u8>, path: &[u32]) -> Result<(), NoMemory>
    ensures { IfOk result (λ _. text.new.items ≡ text.old.items ++ (codes ", path" ++ spaced path.now)) }
{
    text.extend_from_slice(b", path")?;
    push_spaced(text, path)
}

/// Adds a use that some path reaches without a definition.
fn push_undefined(text: &mut Vec<u8>, site: u32, path: &[u32]) -> Result<(), NoMemory>
    ensures { IfOk result (λ _. text.new.items ≡ text.old.items ++ (codes "undefined" ++ at_site site ++ codes ", path" ++ spaced path.now)) }
{
    text.extend_from_slice(b"undefined")?;
    push_site(text, site)?;
    push_blocks(text, path)
}

/// Adds the line for a use that some path reaches without a definition.
fn push_path(text: &mut Vec<u8>, site: u32, path: &[u32]) -> Result<(), NoMemory>
    ensures { IfOk result (λ _. text.new.items ≡ text.old.items ++ refused_line 15 (codes "undefined" ++ at_site site ++ codes ", path" ++ spaced path.now)) }
{
    begin_line(text, 15)?;
    push_undefined(text, site, path)?;
    text.push(b'\n')?;
    Ok(())
}

/// The site that the line of a cause names, where it names one.
pub fn site_of_fault(cause: &CheckError) -> Option<u32>
    ensures { result ≡ fault_site (fault_of cause.now) }
{
    match cause {
        CheckError::Unknown { site, .. }
        | CheckError::TypeMismatch { site, .. }
        | CheckError::BadPhi { site }
        | CheckError::Undefined { site, .. }
        | CheckError::BadMark { site } => Some(*site),
        _ => None,
    }
}

/// Adds the line that says why a module isn't valid. The cause isn't running out of memory.
pub fn push_check(text: &mut Vec<u8>, cause: &CheckError) -> Result<(), NoMemory>
    requires { is_some (fault_of cause.now) ≡ true }
    ensures { IfOk result (λ _. text.new.items ≡ text.old.items ++ fault_line (fault_of cause.now)) }
{
    match cause {
        CheckError::Duplicate { global, name } => {
            push_name_line(text, 9, b"duplicate ", *global, name)
        }
        CheckError::Unknown { site, global, name } => push_unknown(text, *site, *global, name),
        CheckError::TypeMismatch { site, operand } => push_type(text, *site, *operand),
        CheckError::BadPhi { site } => push_site_line(text, 12, b"phi", *site),
        CheckError::NoMain => push_cause(text, 13, b"no main"),
        CheckError::BadExternal { name } => push_name_line(text, 14, b"external ", true, name),
        CheckError::Undefined { site, path } => push_path(text, *site, path.as_slice()),
        CheckError::BadMark { site } => push_site_line(text, 16, b"mark", *site),
        CheckError::BadSize { global, name } => {
            push_name_line(text, 17, b"size of ", *global, name)
        }
        CheckError::NoMemory => Ok(()),
    }
}
