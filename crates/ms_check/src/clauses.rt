//! The clauses of a valid module in their order, each tested where those before it hold: `UpTo..` says that the clauses up to one
//! hold. What a clause finds becomes the `CheckError`.
ghost use Rattle.std.specs.Prelude.{◌≡◌, [], IfErr, IfSome, OnOk};
ghost use Rattle.ms_check_valid.specs.{Formed.{Formed}, NamesOnce.{duplicates}};
ghost use Rattle.ms_check_valid.specs.Refusals.{IsRefused, UpToNames, UpToTypes, UpToPhis, UpToMain, UpToExternals, UpToUses, UpToMarks};
ghost use Rattle.ms_check_valid.specs.Valid.{Valid};
ghost use Rattle.ms_check.specs.Faults.{fault_of};

use crate::errors::CheckError;
use crate::{first_duplicate, first_unknown};
use ms_bits::Duplicate;
use ms_check_externals::{first_bad_external, first_bad_mark};
use ms_check_flow::{defines_main, first_bad_edge, first_undefined};
use ms_check_types::{first_mismatch, first_unsized};
use ms_check_valid::laws::law_small_numbers;
use ms_ir::Module;
use std::alloc::Global;

/// Whether no name is defined twice.
fn names_once(alloc: Global, m: &Module) -> Result<(), CheckError>
    ensures holds { OnOk result (duplicates m.now ≡ []) }
    ensures refused { IfErr result (λ e. IfSome (fault_of e) (IsRefused m.now)) }
{
    match first_duplicate(alloc, m)? {
        None => Ok(()),
        Some(repeated) => Err(CheckError::Duplicate {
            global: repeated.global,
            name: repeated.name.copy(alloc)?,
        }),
    }
}

/// Whether each name that is used is defined.
fn names_known(alloc: Global, m: &Module) -> Result<(), CheckError>
    requires formed { Formed m.now }
    requires before { duplicates m.now ≡ [] }
    ensures holds { OnOk result (UpToNames m.now) }
    ensures refused { IfErr result (λ e. IfSome (fault_of e) (IsRefused m.now)) }
{
    law_small_numbers();
    match first_unknown(alloc, m)? {
        None => Ok(()),
        Some(unknown) => {
            let spelled = &unknown.spelled;
            Err(CheckError::Unknown {
                site: unknown.site,
                global: spelled.global,
                name: spelled.name.copy(alloc)?,
            })
        }
    }
}

/// Whether types agree.
fn types_agree(alloc: Global, m: &Module) -> Result<(), CheckError>
    requires formed { Formed m.now }
    requires before { UpToNames m.now }
    ensures holds { OnOk result (UpToTypes m.now) }
    ensures refused { IfErr result (λ e. IfSome (fault_of e) (IsRefused m.now)) }
{
    match first_mismatch(alloc, m)? {
        None => Ok(()),
        Some(mismatch) => Err(CheckError::TypeMismatch {
            site: mismatch.site,
            operand: mismatch.operand,
        }),
    }
}

/// Whether phis and branches fit.
fn phis_fit(alloc: Global, m: &Module) -> Result<(), CheckError>
    requires formed { Formed m.now }
    requires before { UpToTypes m.now }
    ensures holds { OnOk result (UpToPhis m.now) }
    ensures refused { IfErr result (λ e. IfSome (fault_of e) (IsRefused m.now)) }
{
    law_small_numbers();
    match first_bad_edge(alloc, m)? {
        None => Ok(()),
        Some(site) => Err(CheckError::BadPhi { site }),
    }
}

/// Whether there is a `main`.
fn has_main(m: &Module) -> Result<(), CheckError>
    requires { UpToPhis m.now }
    ensures holds { OnOk result (UpToMain m.now) }
    ensures refused { IfErr result (λ e. IfSome (fault_of e) (IsRefused m.now)) }
{
    if defines_main(m) {
        Ok(())
    } else {
        Err(CheckError::NoMain)
    }
}

/// Whether externals, runtime functions and slots have the types that they are known with.
fn externals_fit(alloc: Global, m: &Module) -> Result<(), CheckError>
    requires { UpToMain m.now }
    ensures holds { OnOk result (UpToExternals m.now) }
    ensures refused { IfErr result (λ e. IfSome (fault_of e) (IsRefused m.now)) }
{
    match first_bad_external(alloc, m)? {
        None => Ok(()),
        Some(name) => Err(CheckError::BadExternal {
            name: name.copy(alloc)?,
        }),
    }
}

/// Whether each use of a value is defined on every path to it.
fn uses_defined(alloc: Global, m: &Module) -> Result<(), CheckError>
    requires formed { Formed m.now }
    requires before { UpToExternals m.now }
    ensures holds { OnOk result (UpToUses m.now) }
    ensures refused { IfErr result (λ e. IfSome (fault_of e) (IsRefused m.now)) }
{
    match first_undefined(alloc, m)? {
        None => Ok(()),
        Some(undefined) => Err(CheckError::Undefined {
            site: undefined.site,
            path: undefined.path,
        }),
    }
}

/// Whether marks stand on inserted code alone.
fn marks_fit(alloc: Global, m: &Module) -> Result<(), CheckError>
    requires formed { Formed m.now }
    requires before { UpToUses m.now }
    ensures holds { OnOk result (UpToMarks m.now) }
    ensures refused { IfErr result (λ e. IfSome (fault_of e) (IsRefused m.now)) }
{
    law_small_numbers();
    match first_bad_mark(alloc, m)? {
        None => Ok(()),
        Some(site) => Err(CheckError::BadMark { site }),
    }
}

/// Whether types have sizes.
fn sizes_fit(alloc: Global, m: &Module) -> Result<(), CheckError>
    requires { UpToMarks m.now }
    ensures holds { OnOk result (Valid m.now) }
    ensures refused { IfErr result (λ e. IfSome (fault_of e) (IsRefused m.now)) }
{
    match first_unsized(alloc, m)? {
        None => Ok(()),
        Some(fault) => Err(CheckError::BadSize {
            global: fault.global,
            name: fault.name.copy(alloc)?,
        }),
    }
}

/// Whether the clauses up to that of phis hold, else the first that doesn't.
fn up_to_phis(alloc: Global, m: &Module) -> Result<(), CheckError>
    requires { Formed m.now }
    ensures holds { OnOk result (UpToPhis m.now) }
    ensures refused { IfErr result (λ e. IfSome (fault_of e) (IsRefused m.now)) }
{
    names_once(alloc, m)?;
    names_known(alloc, m)?;
    types_agree(alloc, m)?;
    phis_fit(alloc, m)
}

/// Whether all clauses hold, else the first that doesn't.
pub fn all_hold(alloc: Global, m: &Module) -> Result<(), CheckError>
    requires { Formed m.now }
    ensures holds { OnOk result (Valid m.now) }
    ensures refused { IfErr result (λ e. IfSome (fault_of e) (IsRefused m.now)) }
{
    up_to_phis(alloc, m)?;
    has_main(m)?;
    externals_fit(alloc, m)?;
    uses_defined(alloc, m)?;
    marks_fit(alloc, m)?;
    sizes_fit(alloc, m)
}
