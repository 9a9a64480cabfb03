//! Tables of printed names: of traps, constructs that are left out, limits, causes, kinds of uses and kinds of roots.
ghost use Rattle.std.specs.Prelude.{◌≡◌, ◌++◌, None, IfSome, codes, decimal};
ghost use Rattle.ms_report.specs.{RefusalTexts.{outside_name, limit_name, cause_name}, ReportTexts.{kind_text, root_name}, RunTexts.{trap_name}};

use ms_bits::Trap;
use ms_ir::RootKind;
use ms_runs_uses::kinds;
use ms_text_grammar::{Limit, Outside};

/// The printed name of a trap.
pub fn name_of_trap(trap: Trap) -> &'static [u8]
    ensures { result.now ≡ trap_name trap }
{
    match trap {
        Trap::Shift => b"shift",
        Trap::ZeroDivisor => b"zero-divisor",
        Trap::ZeroPoison => b"zero-poison",
        Trap::Overflow => b"overflow",
        Trap::Nuw => b"nuw",
        Trap::Nsw => b"nsw",
        Trap::Exact => b"exact",
        Trap::Disjoint => b"disjoint",
        Trap::Nneg => b"nneg",
        Trap::Samesign => b"samesign",
        Trap::BadAddress => b"bad-address",
        Trap::BadFree => b"bad-free",
        Trap::Stack => b"stack",
        Trap::Depth => b"depth",
        Trap::Output => b"output",
        Trap::Unreachable => b"unreachable",
        Trap::Abort => b"abort",
        Trap::Deadlock => b"deadlock",
        Trap::Format => b"format",
    }
}

/// The printed name of a construct that is left out.
pub fn name_of_construct(construct: Outside) -> &'static [u8]
    ensures { result.now ≡ outside_name construct }
{
    match construct {
        Outside::FloatingPoint => b"floating point",
        Outside::Vector => b"vector",
        Outside::WideInteger => b"wide integer",
        Outside::AddressSpace => b"address space",
        Outside::ThreadLocal => b"thread local",
        Outside::AggregateValue => b"aggregate value",
        Outside::ByValue => b"by value",
        Outside::IndirectCall => b"indirect call",
        Outside::FunctionType => b"function type",
        Outside::Variadic => b"variadic",
        Outside::Exceptions => b"exceptions",
        Outside::Assembly => b"assembly",
        Outside::IndirectBranch => b"indirect branch",
        Outside::Atomics => b"atomics",
        Outside::Volatile => b"volatile",
        Outside::VariableArguments => b"variable arguments",
        Outside::Alias => b"alias",
        Outside::Comdat => b"comdat",
        Outside::ExternalGlobal => b"external global",
        Outside::OpaqueType => b"opaque type",
        Outside::TypedPointer => b"typed pointer",
        Outside::MetadataOperand => b"metadata operand",
        Outside::OperandBundle => b"operand bundle",
        Outside::ConstantExpression => b"constant expression",
        Outside::CallOfMain => b"call of main",
    }
}

/// The printed name of a limit.
pub fn name_of_limit(limit: Limit) -> &'static [u8]
    ensures { result.now ≡ limit_name limit }
{
    match limit {
        Limit::Instructions => b"instructions",
        Limit::Functions => b"functions",
        Limit::Globals => b"globals",
        Limit::Parameters => b"parameters",
        Limit::Types => b"types",
        Limit::Indices => b"indices",
        Limit::Name => b"name",
    }
}

/// The printed name of the cause, of a text that isn't read, with a number from 4 to 8.
pub fn name_of_cause(number: u8) -> &'static [u8]
    ensures { result.now ≡ cause_name number }
{
    match number {
        4 => b"syntax",
        5 => b"outside",
        6 => b"limit",
        7 => b"numbering",
        _ => b"reserved",
    }
}

/// The printed name of a kind of use, where it has one.
pub fn name_of_kind(kind: u32) -> Option<&'static [u8]>
    ensures named { IfSome result (λ name. kind_text kind ≡ name.now) }
    ensures unnamed { result ≡ None → kind_text kind ≡ codes "kind " ++ decimal kind }
{
    match kind {
        kinds::BRANCH => Some(b"branch"),
        kinds::SWITCH => Some(b"switch"),
        kinds::ADDRESS => Some(b"address"),
        kinds::DIVISOR => Some(b"divisor"),
        kinds::SIZE => Some(b"size"),
        kinds::POINTER => Some(b"pointer"),
        kinds::VALUE => Some(b"value"),
        kinds::EXIT => Some(b"exit"),
        kinds::OUTPUT => Some(b"output"),
        kinds::STRING => Some(b"string"),
        kinds::FIRST_BYTES => Some(b"first-bytes"),
        kinds::SECOND_BYTES => Some(b"second-bytes"),
        _ => None,
    }
}

/// The printed name of a kind of root.
pub fn name_of_root(kind: RootKind) -> &'static [u8]
    ensures { result.now ≡ root_name kind }
{
    match kind {
        RootKind::Alloca => b"alloca",
        RootKind::Malloc => b"malloc",
        RootKind::Realloc => b"realloc",
        RootKind::Lifetime => b"lifetime",
        RootKind::Undef => b"undef",
    }
}
