//! Modules that are known to be valid, with the code that they run as, and the check by which it is known.
ghost use Rattle.std.specs.Prelude.{◌≡◌, None, IfErr, IfOk, IfSome, OnOk};
ghost use Rattle.ms_check_valid.specs.{Formed.{Formed}, Refusals.{IsRefused}, Valid.{Valid}};
ghost use Rattle.ms_machine_code.specs.Compiled.{Compiled};
ghost use Rattle.ms_check.specs.Faults.{fault_of};

use crate::clauses::all_hold;
use crate::errors::CheckError;
use ms_bits::{Duplicate, NoMemory};
use ms_ir::Module;
use ms_machine_code::Program;
use ms_machine_compile::compile;
use std::alloc::Global;
use std::marker::Model;

/// A module that is formed and valid, with the code that it runs as. Contracts see the module.
#[derive(Drop)]
pub struct CheckedModule {
    module: Module,
    program: Program,
}

impl Model for CheckedModule {
    ghost use Rattle.std.specs.Prelude.{◌≡◌};
    ghost use Rattle.ms_ir.specs.declared.syntax.Module.{Module};
    ghost use Rattle.ms_ir.specs.contracts.syntax.Module as modules;
    ghost use Rattle.ms_check_valid.specs.{Formed.{Formed}, Valid.{Valid}};
    ghost use Rattle.ms_machine_code.specs.Compiled.{Compiled};

    ghost Value = { Module };

    // By which the prover tells values of the model apart.
    ghost coded = { modules.the_row.coded };

    ghost view = { λ c. c.module };

    ghost invariant = { λ c. Formed c.module × Valid c.module × Compiled c.module c.program };
}

impl CheckedModule {
    /// A module that is known to be valid, as the pass makes it, which is not checked again. Its code is made, in the time that
    /// `check` takes for that.
    pub fn of_valid(alloc: Global, m: Module) -> Result<CheckedModule, NoMemory>
        requires formed { Formed m }
        requires valid { Valid m }
        ensures { IfOk result (λ checked. checked ≡ m) }
    {
        let program = compile(alloc, &m)?;
        Ok(CheckedModule { module: m, program })
    }

    /// The module, lent.
    pub fn module(&self) -> &Module
        ensures { result.now ≡ self.now }
    {
        &self.module
    }

    /// The module, handed out, without its code. Takes no memory.
    pub fn into_module(self) -> Module
        ensures { result ≡ self }
    {
        self.module
    }

    /// The code that the module runs as.
    pub fn program(&self) -> &Program
        ensures { Compiled self.now result.now }
    {
        &self.program
    }

    /// A law: what is checked is formed and valid, for a caller that has to know it.
    pub fn law_valid(&self)
        ensures formed { Formed self.now }
        ensures valid { Valid self.now }
    {
        let _module = &self.module;
    }
}

/// A copy, whose code is made anew: for a pass that inserts nothing, and tests.
impl Duplicate for CheckedModule {
    fn copy(&self, alloc: Global) -> Result<Self, NoMemory> {
        CheckedModule::of_valid(alloc, self.module.copy(alloc)?)
    }
}

/// The code of a module that meets all clauses, else the first that doesn't hold.
fn code_of(alloc: Global, m: &Module) -> Result<Program, CheckError>
    requires { Formed m.now }
    ensures valid { OnOk result (Valid m.now) }
    ensures compiled { IfOk result (Compiled m.now) }
    ensures refused { IfErr result (λ e. IfSome (fault_of e) (IsRefused m.now)) }
{
    all_hold(alloc, m)?;
    let program = compile(alloc, m)?;
    Ok(program)
}

/// Checks a module, as a reader or the pass gives it. Ok only where it is valid. Else the error is the first clause that it
/// breaks, with the first place in its text, and the module comes back as it was. A valid module is never refused: the error is
/// running out of memory then, which alone says nothing. `laws::law_one_answer` says that a module has one such error at most, but
/// for the path of an undefined use.
///
/// The code of a valid module is made too. The time grows with the size of the module, names being found as `NameTable`
/// finds them; that of the search for an undefined use also with the number of edges, once for each 64 of a function's
/// values; and that of the code also with the number of a struct's fields, once for each constant index into it.
#[tactic(auto, using(crate::proofs::Exact::valid_told))]
pub fn check(alloc: Global, m: Module) -> Result<CheckedModule, (CheckError, Module)>
    requires { Formed m }
    ensures valid { OnOk result (Valid m) }
    ensures kept { IfOk result (λ checked. checked ≡ m) }
    ensures refused { IfErr result (λ e. IfSome (fault_of e.0) (IsRefused m)) }
    ensures exact { Valid m → IfErr result (λ e. fault_of e.0 ≡ None) }
    ensures back { IfErr result (λ e. e.1 ≡ m) }
{
    match code_of(alloc, &m) {
        Ok(program) => Ok(CheckedModule { module: m, program }),
        Err(error) => Err((error, m)),
    }
}
