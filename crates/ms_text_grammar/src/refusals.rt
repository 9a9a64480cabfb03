//! Why a token can't stand where it stands.

ghost use Rattle.std.specs.Prelude.{◌≡◌};
ghost use Rattle.ms_text_grammar.specs.{declared.refusals.Cause.TheVariants.{NoMemory}, Causes.{printed_number}};

use std::alloc::{AllocError, AllocFailed};

/// A construct of LLVM's language that this repository leaves out, by the token that shows it.
#[derive(Clone, Copy, Debug, PartialEq, Eq)]
pub enum Outside {
    /// A type, an operation or a literal of floating point.
    FloatingPoint,
    /// A vector type, or an operation on vectors.
    Vector,
    /// An integer type of more than 64 bits, or a literal below -2^63 or above 2^64 - 1.
    WideInteger,
    /// `addrspace`, `addrspacecast`.
    AddressSpace,
    /// `thread_local`.
    ThreadLocal,
    /// An array, a struct or a named type as the type of a value, `insertvalue`, `extractvalue`.
    AggregateValue,
    /// `byval` and the other attributes that pass memory.
    ByValue,
    /// A local value as the callee.
    IndirectCall,
    /// A call that is written with the type of its callee.
    FunctionType,
    /// `...`.
    Variadic,
    /// `invoke`, `landingpad` and their kin.
    Exceptions,
    /// `asm`, also of a module.
    Assembly,
    /// `indirectbr`, `blockaddress`.
    IndirectBranch,
    /// `atomic`, `fence`, `cmpxchg`, `atomicrmw`.
    Atomics,
    /// `volatile`.
    Volatile,
    /// `va_arg`.
    VariableArguments,
    /// `alias`, `ifunc`.
    Alias,
    /// `comdat`, `$name`.
    Comdat,
    /// `external`, `extern_weak` of a global variable.
    ExternalGlobal,
    /// `opaque`.
    OpaqueType,
    /// `*`.
    TypedPointer,
    /// `metadata` as the type of an argument.
    MetadataOperand,
    /// `[` after the arguments of a call.
    OperandBundle,
    /// An operation where a value must stand.
    ConstantExpression,
    /// `@main` as the callee.
    CallOfMain,
}

/// A limit that a text passes.
#[derive(Clone, Copy, Debug, PartialEq, Eq)]
pub enum Limit {
    /// Instructions of a module: 2^17 in the plain form, 2^22 in the instrumented one.
    Instructions,
    /// Functions and declarations together: 16384.
    Functions,
    /// Global variables: 16384.
    Globals,
    /// Parameters of a function, and arguments of a call of `printf`: 100.
    Parameters,
    /// Arrays and structs that are open at a token: 32.
    Types,
    /// Indices of a `getelementptr`: 64.
    Indices,
    /// Bytes of a name: 1024.
    Name,
}

/// Why a token can't stand where it stands.
#[derive(Clone, Copy, Debug, PartialEq, Eq)]
pub enum Cause {
    /// The tokens through this one begin no text of the grammar.
    Syntax,
    /// The tokens through this one begin no text of the grammar, and the token shows a construct that is left out.
    Outside(Outside),
    /// The token passes this limit.
    Limit(Limit),
    /// A written number isn't the next one of its function, or is above 2^32 - 1.
    Numbering,
    /// A name that begins with `__msan`, or a mark, that the form doesn't have.
    Reserved,
    /// Memory ran out. No definition gives it.
    NoMemory,
}

impl Cause {
    /// The number under which it is printed, from 4 to 8; none where memory runs out.
    pub fn number(&self) -> Option<u8>
        ensures { result ≡ printed_number self.now }
    {
        match self {
            Cause::Syntax => Some(4),
            Cause::Outside(_) => Some(5),
            Cause::Limit(_) => Some(6),
            Cause::Numbering => Some(7),
            Cause::Reserved => Some(8),
            Cause::NoMemory => None,
        }
    }
}

impl From<AllocError> for Cause {
    ghost from_gives = { λ _ e. e ≡ NoMemory };

    fn from(_error: AllocError) -> Cause {
        Cause::NoMemory
    }
}

impl<T: Drop> From<AllocFailed<T>> for Cause {
    ghost from_gives = { λ _ e. e ≡ NoMemory };

    fn from(_error: AllocFailed<T>) -> Cause {
        Cause::NoMemory
    }
}
