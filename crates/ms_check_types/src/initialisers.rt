//! Checks the types of initialisers of globals (LLVM Language Reference, "Global Variables", "Complex Constants").
ghost use Rattle.std.specs.{Prelude.{◌≡◌, ◌||◌, None, length}, List.{list_all}};
ghost use Rattle.ms_ir.specs.Equal.{is_undefined};
ghost use Rattle.ms_check_valid.specs.Initialisers.{is_text_type, item_types, field_types, init_fits};
ghost use Rattle.ms_check_valid.specs.TypesAgree.{operand_fits};
ghost use Rattle.ms_check_types.specs.Items.{item_fits, each_fits, all_fit};

use crate::constants::constant_fits;
use crate::symbols::Symbols;
use ms_ir::{Init, Operand, Ty, ValueType, is_int};

/// Whether a constant may stand after a type: an undefined one after every type.
fn value_fits(symbols: &Symbols<'_>, ty: &Ty, value: &Operand) -> bool
    ensures { result ≡ (is_undefined value.now || operand_fits symbols.now.source.now (λ x. None) ty.now value.now) }
{
    match value {
        Operand::Undef => true,
        Operand::Poison => true,
        _ => constant_fits(symbols, ValueType::Written(ty), value),
    }
}

/// Whether a type is an array of `count` bytes, as an initialiser `c".."` asks.
fn is_text_type(ty: &Ty, count: usize) -> bool
    ensures { result ≡ is_text_type ty.now count }
{
    match ty {
        Ty::Array(own, item) => *own == count as u64 && is_int(item.get(), 8),
        _ => false,
    }
}

/// Whether an initialiser fits the type of its global, or of the item or field that it fills.
#[cycle(init_fits)]
pub fn init_fits<'a, 'm>(symbols: &'a Symbols<'m>, ty: &'a Ty, init: &'a Init) -> bool
    ensures { result ≡ init_fits (operand_fits symbols.now.source.now (λ x. None)) symbols.now.source.now.types ty.now init.now }
{
    match init {
        Init::Value(value) => value_fits(symbols, ty, value),
        Init::Zero => true,
        Init::Text(bytes) => is_text_type(ty, bytes.as_slice().len()),
        Init::Array(items) => array_fits(symbols, ty, items.as_slice()),
        Init::Struct(packed, fields) => match symbols.resolved(ty) {
            Some(whole) => struct_fits(symbols, whole, *packed, fields.as_slice()),
            None => false,
        },
    }
}

/// Whether a type is an array that these items fit, and fill.
#[cycle(init_fits)]
fn array_fits<'a, 'm>(symbols: &'a Symbols<'m>, ty: &'a Ty, items: &'a [(Ty, Init)]) -> bool
    ensures { result ≡ all_fit (operand_fits symbols.now.source.now (λ x. None)) symbols.now.source.now.types (item_types ty.now (length items.now)) items.now }
{
    match ty {
        Ty::Array(count, item) => {
            *count == items.len() as u64 && items_fit(symbols, item.get(), items)
        }
        _ => false,
    }
}

/// Whether each item of an array has the type of its items, and fits it.
#[cycle(init_fits)]
fn items_fit<'a, 'm>(symbols: &'a Symbols<'m>, ty: &'a Ty, items: &'a [(Ty, Init)]) -> bool
    ensures { result ≡ list_all (item_fits (operand_fits symbols.now.source.now (λ x. None)) symbols.now.source.now.types ty.now) items.now }
{
    for (own, init) in items {
        if !(own == ty && init_fits(symbols, ty, init)) {
            return false;
        }
    }
    true
}

/// Whether a type without a name is a struct, packed or not, that these fields fit.
#[cycle(init_fits)]
fn struct_fits<'a, 'm>(
    symbols: &'a Symbols<'m>,
    ty: &'a Ty,
    packed: bool,
    fields: &'a [(Ty, Init)],
) -> bool
    ensures { result ≡ all_fit (operand_fits symbols.now.source.now (λ x. None)) symbols.now.source.now.types (field_types ty.now packed) fields.now }
{
    match ty {
        Ty::Struct(own, types) => *own == packed && fields_fit(symbols, types.as_slice(), fields),
        _ => false,
    }
}

/// Whether fields fit types one by one, and are as many.
#[cycle(init_fits)]
fn fields_fit<'a, 'm>(symbols: &'a Symbols<'m>, types: &'a [Ty], fields: &'a [(Ty, Init)]) -> bool
    ensures { result ≡ each_fits (operand_fits symbols.now.source.now (λ x. None)) symbols.now.source.now.types types.now fields.now }
{
    if types.len() != fields.len() {
        return false;
    }
    for k in 0..types.len() {
        let (own, init) = &fields[k];
        if !(own == &types[k] && init_fits(symbols, &types[k], init)) {
            return false;
        }
    }
    true
}
