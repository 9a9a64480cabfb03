//! Why a module is not valid: what `check` answers, and `ms_report` prints as a refusal.
ghost use Rattle.std.specs.Prelude.{◌≡◌};
ghost use Rattle.ms_check.specs.declared.errors.CheckError.TheVariants.{NoMemory};

use ms_bits::List;
use ms_ir::Name;
use std::alloc::AllocError;

/// The first clause that a module breaks of what a valid module is, in the order of the variants, and for this clause the
/// first place of the module's text: its types, then its globals, its declarations and its functions.
///
/// A site is 1 plus the number of unmarked instructions before the one at fault, through all functions; 0 is a place
/// outside the functions. A name is `global` where it is spelled with `@`, and not where it is spelled with `%`.
#[derive(Debug, Drop)]
pub enum CheckError {
    /// A second type with a name; a second global, declaration or function; or a second parameter, block or result of one
    /// function (LLVM Language Reference, "Identifiers", "Module Structure").
    Duplicate {
        global: bool,
        name: Name,
    },
    /// A name that is used and not defined (LLVM Language Reference, "Identifiers", "Module Structure").
    Unknown {
        site: u32,
        global: bool,
        name: Name,
    },
    /// An operand that hasn't the type that is asked for (LLVM Language Reference, "Instruction Reference", "Constants").
    TypeMismatch {
        /// 0 for the initialiser of a global.
        site: u32,
        /// The number of the operand, from 0 in written order. The first that is missing where one is, and 0 where the
        /// fault is that of a callee, a result or a case. That of the global where the site is 0.
        operand: u32,
    },
    /// A phi that doesn't name each block as often as that has edges to its own, or that has unequal operands for one
    /// block; or a branch to the entry block (LLVM Language Reference, "'phi' Instruction", "Functions").
    BadPhi {
        site: u32,
    },
    /// No function is `i32 @main()`, with which a run begins.
    NoMain,
    /// A global, declaration or function whose name is kept for the runtime and that isn't the runtime's; a declaration
    /// that is called and is no external with its types; or an intrinsic that is called with a flag that doesn't fit.
    BadExternal {
        name: Name,
    },
    /// A use of a value that some path reaches without a definition of it. Such uses stand where they are written, those of
    /// a phi at the phi's own site, though a phi uses its operand at the end of the block that it names.
    Undefined {
        site: u32,
        /// Such a path: the numbers of blocks in their function, each once, from 0 to that of the use. Which one it is, is
        /// left open.
        path: List<u32>,
    },
    /// A mark that stands on anything but inserted code, or inserted code without one. A marked instruction has the site of
    /// the next unmarked one.
    BadMark {
        site: u32,
    },
    /// A type, global or function that is or has a type without a size, or the global with which the globals pass 16 MiB.
    BadSize {
        global: bool,
        name: Name,
    },
    /// Memory ran out. It tells nothing of the module.
    NoMemory,
}

impl From<AllocError> for CheckError {
    ghost from_gives = { λ _ e. e ≡ NoMemory };

    fn from(_error: AllocError) -> CheckError {
        CheckError::NoMemory
    }
}
