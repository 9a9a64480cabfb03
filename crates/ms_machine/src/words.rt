//! The words of a function's values, by their names, for `word` of `inspect.rt`.
ghost use Rattle.std.specs.Prelude.{◌≡◌, ◌≤◌, ◌<◌, ◌%◌, ◌^◌, ℕ, true, length, get_or};
ghost use Rattle.ms_ir.specs.{declared.syntax.Name.{Name as NameOf}, Layout.{width_of}, Locals.{locals}};
ghost use Rattle.ms_ir.specs.ValueTypes.{type_of};
ghost use Rattle.ms_check_valid.specs.{FlowGraph.{name_place}, Formed.{func_formed}, FormedCode.{is_value_type}};
ghost use Rattle.ms_machine_code.specs.Reads.{Holds};
ghost use Rattle.ms_machine.specs.WordsNamed.{word_named};

use crate::names::{number_named, type_named};
use ms_bits::Word;
use ms_ir::{Func, Name, ValueType};
use ms_machine_operands::width_of;

/// The width of a type of values.
fn width(ty: ValueType<'_>) -> u8
    requires { is_value_type (type_of ty) ≡ true }
    ensures width { result ≡ width_of (type_of ty.entry) }
    ensures some { 1 ≤ result }
    ensures few { result ≤ 64 }
{
    match ty {
        ValueType::Bit => 1,
        ValueType::Pointer => 64,
        ValueType::Written(ty) => width_of(ty),
    }
}

/// The `width` low bits of a number as a word.
fn cut(width: u8, value: u64) -> Word
    requires some { 1 ≤ width }
    requires few { width ≤ 64 }
    ensures { result ≡ record { width = width; value = value % 2 ^ width } }
{
    let limit = 1u128 << width;
    Word::new(width, (value as u128 % limit) as u64)
}

/// The value that a frame of the function has for a name.
fn value_named(func: &Func, values: &[u64], name: &Name) -> u64
    requires held { length values.now ≡ length (locals func.now) }
    requires known { name_place (locals func.now) name.now < length (locals func.now) }
    ensures { result ≡ get_or values.now (name_place (locals func.now) name.now) 0 }
{
    let count = values.len();
    match number_named(func, name) {
        Ok(number) if number < count => values[number],
        _ => unreachable!(),
    }
}

/// The word of the parameter or result with a name, in a function with these values.
pub(crate) fn word_in(func: &Func, values: &[u64], name: &Name) -> Option<Word>
    requires formed { func_formed func.now ≡ true }
    requires held { length values.now ≡ length (locals func.now) }
    ensures { (meant : NameOf → ℕ) → Holds (locals func.now) values.now meant → result ≡ word_named func.now meant name.now }
{
    match type_named(func, name) {
        Some(ty) => Some(cut(width(ty), value_named(func, values, name))),
        None => None,
    }
}
