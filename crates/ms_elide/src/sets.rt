//! The clean values of a whole module, function by function, as names.
ghost use Rattle.std.specs.Prelude.{◌≡◌, ◌<◌, [], length, IfOk, OnOk, slice_index_or};
ghost use Rattle.ms_ir.specs.Locals.{function_names, locals};
ghost use Rattle.ms_check_valid.specs.{NamesOnce.{repeats}, Valid.{Valid}};
ghost use Rattle.ms_elide.specs.CleanSets.{is_in, HasMore, IsExact};

use crate::values::values_of;
use ms_bits::NoMemory;
use ms_check_tables::{NameTable, functions_of};
use ms_ir::{Func, Module, Name};
use std::alloc::Global;
use std::marker::Model;

/// Values of the functions of a module, by name. The names are borrowed from the module. Contracts see for each function
/// the list of the names.
#[derive(Drop)]
pub struct CleanSet<'m> {
    /// The names of each function's values, in written order.
    funcs: Vec<NameTable<'m>>,
}

impl<'m> Model for CleanSet<'m> {
    ghost use Rattle.std.specs.Prelude.{List};
    ghost use Rattle.ms_ir.specs.declared.syntax.Name.{Name};

    ghost Value = { List (List Name) };

    ghost view = { λ s. s.funcs.items };
}

impl<'m> CleanSet<'m> {
    /// Whether the function with a number, counted from 0 in written order, has this value. It takes no memory, and the
    /// time to find a name.
    pub fn has(&self, func: u32, value: &Name) -> bool
        ensures { result ≡ is_in self.now func value.now }
    {
        match self.funcs.get(func as usize) {
            Some(names) => names.contains(value),
            None => false,
        }
    }

    /// How many functions there are.
    pub fn len(&self) -> usize
        ensures { result ≡ length self.now }
    {
        self.funcs.len()
    }

    /// The names of the values of the function with a number.
    pub fn names(&self, func: usize) -> &NameTable<'m>
        requires { func < length self.now }
        ensures { result.now ≡ slice_index_or self.now func [] }
    {
        &self.funcs[func]
    }
}

/// The clean values of a valid module: its results that have no poisoned bit in any run, as far as the text of their
/// functions shows. Near to linear in the module.
pub fn clean_values(alloc: Global, m: &Module) -> Result<CleanSet<'_>, NoMemory>
    requires { Valid m.now }
    ensures functions { IfOk result (λ s. length s ≡ length m.now.funcs) }
    ensures exact { IfOk result (λ s. IsExact m.now s) }
{
    let functions = functions_of(alloc, m)?;
    let funcs = values_by_function(alloc, &functions, m)?;
    Ok(CleanSet { funcs })
}

/// The clean values of each function of a valid module, whose functions have the names `functions`.
fn values_by_function<'m>(
    alloc: Global,
    functions: &NameTable<'m>,
    m: &'m Module,
) -> Result<Vec<NameTable<'m>>, NoMemory>
    requires valid { Valid m.now }
    requires named { functions.now ≡ function_names m.now }
    ensures functions { IfOk result (λ all. length all.items ≡ length m.now.funcs) }
    ensures exact { IfOk result (λ all. IsExact m.now all.items) }
{
    let mut funcs = Vec::with_capacity(alloc, m.funcs.as_slice().len())?;
    for func in m.funcs.as_slice() {
        push_values(alloc, &mut funcs, functions, func)?;
    }
    Ok(funcs)
}

/// Adds the clean values of a function to those of the functions before it.
fn push_values<'m>(
    alloc: Global,
    funcs: &mut Vec<NameTable<'m>>,
    functions: &NameTable<'m>,
    func: &'m Func,
) -> Result<(), NoMemory>
    requires { repeats [] (locals func.now) ≡ [] }
    ensures { OnOk result (HasMore functions.now func.now funcs.old.items funcs.new.items) }
{
    let names = values_of(alloc, functions, func)?;
    funcs.push(names)?;
    Ok(())
}
