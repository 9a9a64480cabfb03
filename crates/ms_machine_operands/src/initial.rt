//! The words of the constants in the initialisers of globals.
ghost use Rattle.std.specs.Prelude.{◌≡◌, ◌++◌, [], map, IfOk};
ghost use Rattle.ms_runs.specs.Globals.{address_of, constant};
ghost use Rattle.ms_check_valid.specs.{Formed.{Formed}, Valid.{Valid}};
ghost use Rattle.ms_machine_code.specs.Constants.{init_constants, parts_constants, global_constants, globals_constants};
ghost use Rattle.ms_machine_operands.specs.{Sized.{IsReadable}, Tabled.{AreTables}};
ghost use Rattle.ms_machine_operands.specs.InitialWords.{AreReadable, AreLow, words_of};

use crate::addresses::address;
use crate::steps::stepped;
use crate::tables::CodeTables;
use ms_bits::{List, NoMemory};
use ms_ir::{GlobalVar, Init, Operand, Ty};
use std::alloc::Global;

/// The word of a constant; undefined words are zero.
fn constant(tables: &CodeTables<'_>, operand: &Operand) -> u64
    requires tables { AreTables tables.now }
    requires low { AreLow tables.now.whole.now }
    requires readable { IsReadable tables.now.whole.now.types [] operand.now }
    ensures { result ≡ constant tables.now.whole.now.types (address_of tables.now.whole.now) operand.now }
{
    match operand {
        Operand::Int(word) => *word,
        Operand::Global(name) => address(tables, name),
        Operand::Offset(name, steps) => {
            let base = address(tables, name.get());
            stepped(tables, base, steps.as_slice())
        }
        Operand::Null | Operand::Undef | Operand::Poison | Operand::Local(_) => 0,
    }
}

/// Appends the words of the constants in an initialiser.
#[cycle(constants)]
fn push_init(tables: &CodeTables<'_>, init: &Init, words: &mut Vec<u64>) -> Result<(), NoMemory>
    requires tables { AreTables tables.now }
    requires low { AreLow tables.now.whole.now }
    requires readable { AreReadable tables.now.whole.now.types (init_constants init.now) }
    ensures { IfOk result (λ _. words.new.items ≡ words.old.items ++ words_of tables.now.whole.now (init_constants init.now)) }
{
    match init {
        Init::Value(operand) => {
            words.push(constant(tables, operand))?;
            Ok(())
        }
        Init::Zero => Ok(()),
        Init::Text(_) => Ok(()),
        Init::Array(items) => push_parts(tables, items.as_slice(), words),
        Init::Struct(_, fields) => push_parts(tables, fields.as_slice(), words),
    }
}

/// Appends the words of the constants in the parts of an array or a struct.
#[cycle(constants)]
fn push_parts(
    tables: &CodeTables<'_>,
    parts: &[(Ty, Init)],
    words: &mut Vec<u64>,
) -> Result<(), NoMemory>
    requires tables { AreTables tables.now }
    requires low { AreLow tables.now.whole.now }
    requires readable { AreReadable tables.now.whole.now.types (parts_constants parts.now) }
    ensures { IfOk result (λ _. words.new.items ≡ words.old.items ++ words_of tables.now.whole.now (parts_constants parts.now)) }
{
    for (_, init) in parts {
        push_init(tables, init, words)?;
    }
    Ok(())
}

/// Appends the words of a global's initialiser; a global with a reserved name has none.
fn push_global(
    tables: &CodeTables<'_>,
    global: &GlobalVar,
    words: &mut Vec<u64>,
) -> Result<(), NoMemory>
    requires tables { AreTables tables.now }
    requires low { AreLow tables.now.whole.now }
    requires readable { AreReadable tables.now.whole.now.types (global_constants global.now) }
    ensures { IfOk result (λ _. words.new.items ≡ words.old.items ++ words_of tables.now.whole.now (global_constants global.now)) }
{
    if global.name.is_reserved() {
        return Ok(());
    }
    push_init(tables, &global.init, words)
}

/// Appends the words of the initialisers of globals.
fn push_globals(
    tables: &CodeTables<'_>,
    globals: &[GlobalVar],
    words: &mut Vec<u64>,
) -> Result<(), NoMemory>
    requires tables { AreTables tables.now }
    requires low { AreLow tables.now.whole.now }
    requires readable { AreReadable tables.now.whole.now.types (globals_constants globals.now) }
    ensures { IfOk result (λ _. words.new.items ≡ words.old.items ++ words_of tables.now.whole.now (globals_constants globals.now)) }
{
    for global in globals {
        push_global(tables, global, words)?;
    }
    Ok(())
}

/// The words of the constants in the initialisers of a module's globals, in text order; undefined ones are zero, and globals
/// with reserved names have none.
///
/// The time is linear in what is written in the initialisers, but for names, which `NameTable` finds, and for
/// the structs that constant offsets lead into, whose fields are gone over at each.
pub fn initial_words(alloc: Global, tables: &CodeTables<'_>) -> Result<List<u64>, NoMemory>
    requires tables { AreTables tables.now }
    requires formed { Formed tables.now.whole.now }
    requires valid { Valid tables.now.whole.now }
    ensures { IfOk result (λ words. words ≡ map (constant tables.now.whole.now.types (address_of tables.now.whole.now)) (globals_constants tables.now.whole.now.globals)) }
{
    let mut words = Vec::new(alloc);
    push_globals(tables, tables.whole.globals.as_slice(), &mut words)?;
    Ok(List::from_vec(words))
}
