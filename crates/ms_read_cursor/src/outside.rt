//! The constructs of LLVM's language that are left out, by which a refusal says more than that a token can't stand.

ghost use Rattle.std.specs.Prelude.{◌≡◌};
ghost use Rattle.ms_text_grammar.specs.Steps as spec;

use ms_text_grammar::{Outside, Symbol};

/// The construct that is left out and that a symbol shows wherever the grammar doesn't have it.
#[tactic(auto, unfolding(ms_text_grammar::specs::Steps::outside_of))]
pub fn outside_of(symbol: Symbol) -> Option<Outside>
    ensures { result ≡ spec.outside_of symbol }
{
    match symbol {
        Symbol::FloatingPointWord | Symbol::FloatLiteral => Some(Outside::FloatingPoint),
        Symbol::VectorWord => Some(Outside::Vector),
        Symbol::WideIntType => Some(Outside::WideInteger),
        Symbol::AddressSpaceWord => Some(Outside::AddressSpace),
        Symbol::ThreadLocalWord => Some(Outside::ThreadLocal),
        Symbol::AggregateWord => Some(Outside::AggregateValue),
        Symbol::ByValueWord => Some(Outside::ByValue),
        Symbol::Dots => Some(Outside::Variadic),
        Symbol::ExceptionWord => Some(Outside::Exceptions),
        Symbol::AssemblyWord => Some(Outside::Assembly),
        Symbol::IndirectBranchWord => Some(Outside::IndirectBranch),
        Symbol::AtomicWord => Some(Outside::Atomics),
        Symbol::VolatileWord => Some(Outside::Volatile),
        Symbol::VariableArgumentWord => Some(Outside::VariableArguments),
        Symbol::AliasWord => Some(Outside::Alias),
        Symbol::ComdatWord | Symbol::DollarName => Some(Outside::Comdat),
        Symbol::OpaqueWord => Some(Outside::OpaqueType),
        Symbol::Star => Some(Outside::TypedPointer),
        Symbol::MetadataWord => Some(Outside::MetadataOperand),
        _ => None,
    }
}
