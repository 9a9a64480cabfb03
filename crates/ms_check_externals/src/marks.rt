//! The first site where a mark doesn't fit: marks (`!nosanitize`) stand on inserted instructions and on nothing else, and the
//! program doesn't use what is inserted. A clause of validity.
ghost use Rattle.std.specs.{Prelude.{◌≡◌, not, [], ◌∷◌, Option, None, if◌then◌else◌, IfOk, slice_get}, List.{list_any}};
ghost use Rattle.ms_ir.specs.{Names.{is_inserted_name}, Places.{HasSmallNumbers}, Written.{mentions}};
ghost use Rattle.ms_check_valid.specs.MarksFit.{may_be_marked, all_results, is_inserted, marked_results, mark_fits, bad_marks};
ghost use Rattle.ms_check_externals.specs.Inserted.{fits};

use ms_bits::NoMemory;
use ms_check_tables::{Clause, InstSite, NameTable, Pick, Search, Uses, first_fault, push_code};
use ms_ir::{Func, Inst, Module, Name, Op, RuntimeFn};
use std::alloc::Global;

/// Picks the results of marked instructions.
struct MarkedResults;

impl Pick for MarkedResults {
    ghost picked = { λ p inst. if inst.marked then inst.result else None };

    fn pick<'m>(&self, inst: &'m Inst) -> Option<&'m Name> {
        if inst.marked {
            inst.result.as_ref()
        } else {
            None
        }
    }
}

/// The results of a function's marked instructions.
fn marked_results(alloc: Global, func: &Func) -> Result<NameTable<'_>, NoMemory>
    ensures { IfOk result (λ names. names ≡ marked_results func.now) }
{
    let mut names = NameTable::new(alloc);
    push_code(&mut names, &MarkedResults, func.blocks.as_slice())?;
    Ok(names)
}

/// What is sought are names of what is inserted into a function with these marked results.
#[derive(Drop)]
struct Inserted<'a, 'm> {
    /// The names of its marked instructions' results.
    marked: &'a NameTable<'m>,
}

impl<'a, 'm> Search for Inserted<'a, 'm> {
    ghost sought = { λ s x. is_inserted s.marked.now x };

    fn seeks_type(&self, name: &Name) -> bool {
        name.is_reserved()
    }

    fn seeks_local(&self, name: &Name) -> bool {
        name.is_reserved() || self.marked.contains(name)
    }

    fn seeks_global(&self, name: &Name) -> bool {
        name.is_reserved()
    }
}

/// Whether an instruction uses a name of what is inserted.
#[tactic(auto, using(crate::proofs::Marked::any_is))]
fn uses_inserted(marked: &NameTable<'_>, op: &Op) -> bool
    ensures { result ≡ list_any (is_inserted marked.now) (mentions op.now) }
{
    op.first_in(&Inserted { marked }).is_some()
}

/// Whether an instruction may be marked: terminators and `alloca` may not, and a call that may goes to a runtime function.
fn may_be_marked(op: &Op) -> bool
    ensures { result ≡ may_be_marked op.now }
{
    match op {
        Op::Alloca { .. } => false,
        Op::Br { .. } => false,
        Op::CondBr { .. } => false,
        Op::Switch { .. } => false,
        Op::Ret { .. } => false,
        Op::Unreachable => false,
        Op::Call { callee, .. } => RuntimeFn::named(callee).is_some(),
        _ => true,
    }
}

/// Whether the result of a marked instruction, where it has one, is named as inserted.
fn is_named_inserted(name: &Option<Name>) -> bool
    ensures { result ≡ all_results is_inserted_name name.now }
{
    match name {
        None => true,
        Some(name) => name.is_inserted(),
    }
}

/// Whether the result of an unmarked instruction, where it has one, isn't named as inserted.
fn is_named_otherwise(name: &Option<Name>) -> bool
    ensures { result ≡ all_results (λ x. not (is_inserted_name x)) name.now }
{
    match name {
        None => true,
        Some(name) => !name.is_inserted(),
    }
}

/// Whether an instruction has the mark that it may have, in a function with these marked results.
fn fits(marked: &NameTable<'_>, inst: &Inst) -> bool
    ensures { result ≡ fits marked.now inst.now }
{
    if inst.marked {
        may_be_marked(&inst.op) && is_named_inserted(&inst.result)
    } else {
        is_named_otherwise(&inst.result) && !uses_inserted(marked, &inst.op)
    }
}

/// The clause that each mark fits. A fault is a site.
struct MarksFit;

/// Nothing is asked of a function (`Asks`), its tables have its marked results (`AreOf`), and it has no fault (`head`) but its
/// instructions' (`look`).
impl<'m> Clause<'m> for MarksFit {
    type Tables = NameTable<'m>;

    type Fault = u32;

    ghost Asks = { λ f. Unit {0} };

    ghost AreOf = { λ clause f marked. marked ≡ marked_results f };

    ghost head = { λ clause f. [] };

    ghost look = { λ clause at inst. if mark_fits at.func inst then [] else at.site ∷ [] };

    fn func_fault(&self, _func: &'m Func) -> Option<u32> {
        None
    }

    fn enter(&self, alloc: Global, func: &'m Func) -> Result<NameTable<'m>, NoMemory> {
        marked_results(alloc, func)
    }

    #[tactic(auto, using(crate::proofs::Marked::mark_is))]
    fn fault(
        &self,
        _alloc: Global,
        tables: &mut NameTable<'m>,
        here: &InstSite<'m>,
        inst: &'m Inst,
    ) -> Result<Option<u32>, NoMemory> {
        if fits(tables, inst) {
            Ok(None)
        } else {
            Ok(Some(here.site))
        }
    }
}

/// The site of the first instruction whose mark doesn't fit, in text order: a marked one that is a terminator, an `alloca` or
/// a call of anything but a runtime function, or whose result isn't named `__msan.` and digits; or an unmarked one whose
/// result is named so, or that names something reserved or the result of a marked one. A marked one has the site of the next
/// unmarked one. None exactly where each mark fits. Sites have 32 bits in every module that is read.
///
/// The time grows with the size of the module, marked results being found as `NameTable` finds names.
pub fn first_bad_mark(alloc: Global, m: &Module) -> Result<Option<u32>, NoMemory>
    requires { HasSmallNumbers m.now }
    ensures { IfOk result (λ site. site ≡ slice_get (bad_marks m.now) 0) }
{
    first_fault(alloc, &MarksFit, m)
}
