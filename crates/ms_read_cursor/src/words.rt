//! The words that mean something by themselves, each with the symbol that it is to the grammar: a table for each first letter.

ghost use Rattle.std.specs.Prelude.{◌≡◌};
ghost use Rattle.ms_text_grammar.specs.Lexemes.{keywords};
ghost use Rattle.ms_read_cursor.specs.Words.{beginning, rows_of};

use ms_text_grammar::Symbol;

/// A word, and its symbol.
pub type Keyword = (&'static [u8], Symbol);

const A_WORDS: [(&[u8], Symbol); 12] = [
    (b"alloca", Symbol::Alloca),
    (b"add", Symbol::Add),
    (b"ashr", Symbol::Ashr),
    (b"and", Symbol::And),
    (b"attributes", Symbol::Attributes),
    (b"align", Symbol::Align),
    (b"addrspace", Symbol::AddressSpaceWord),
    (b"addrspacecast", Symbol::AddressSpaceWord),
    (b"asm", Symbol::AssemblyWord),
    (b"atomic", Symbol::AtomicWord),
    (b"atomicrmw", Symbol::AtomicWord),
    (b"alias", Symbol::AliasWord),
];

const B_WORDS: [(&[u8], Symbol); 6] = [
    (b"br", Symbol::Br),
    (b"bitcast", Symbol::Bitcast),
    (b"bfloat", Symbol::FloatingPointWord),
    (b"byval", Symbol::ByValueWord),
    (b"byref", Symbol::ByValueWord),
    (b"blockaddress", Symbol::IndirectBranchWord),
];

const C_WORDS: [(&[u8], Symbol); 10] = [
    (b"call", Symbol::Call),
    (b"constant", Symbol::ConstantWord),
    (b"catchswitch", Symbol::ExceptionWord),
    (b"catchpad", Symbol::ExceptionWord),
    (b"cleanuppad", Symbol::ExceptionWord),
    (b"catchret", Symbol::ExceptionWord),
    (b"cleanupret", Symbol::ExceptionWord),
    (b"callbr", Symbol::ExceptionWord),
    (b"cmpxchg", Symbol::AtomicWord),
    (b"comdat", Symbol::ComdatWord),
];

const D_WORDS: [(&[u8], Symbol); 6] = [
    (b"disjoint", Symbol::Disjoint),
    (b"datalayout", Symbol::DataLayout),
    (b"distinct", Symbol::Distinct),
    (b"declare", Symbol::Declare),
    (b"define", Symbol::Define),
    (b"double", Symbol::FloatingPointWord),
];

const E_WORDS: [(&[u8], Symbol); 6] = [
    (b"exact", Symbol::Exact),
    (b"eq", Symbol::Eq),
    (b"extractelement", Symbol::VectorWord),
    (b"extractvalue", Symbol::AggregateWord),
    (b"external", Symbol::ExternalWord),
    (b"extern_weak", Symbol::ExternalWord),
];

const F_WORDS: [(&[u8], Symbol); 16] = [
    (b"freeze", Symbol::Freeze),
    (b"false", Symbol::False),
    (b"float", Symbol::FloatingPointWord),
    (b"fp128", Symbol::FloatingPointWord),
    (b"fneg", Symbol::FloatingPointWord),
    (b"fadd", Symbol::FloatingPointWord),
    (b"fsub", Symbol::FloatingPointWord),
    (b"fmul", Symbol::FloatingPointWord),
    (b"fdiv", Symbol::FloatingPointWord),
    (b"frem", Symbol::FloatingPointWord),
    (b"fcmp", Symbol::FloatingPointWord),
    (b"fptrunc", Symbol::FloatingPointWord),
    (b"fpext", Symbol::FloatingPointWord),
    (b"fptoui", Symbol::FloatingPointWord),
    (b"fptosi", Symbol::FloatingPointWord),
    (b"fence", Symbol::AtomicWord),
];

const G_WORDS: [(&[u8], Symbol); 2] = [
    (b"getelementptr", Symbol::GetElementPtr),
    (b"global", Symbol::GlobalWord),
];

const H_WORDS: [(&[u8], Symbol); 1] = [(b"half", Symbol::FloatingPointWord)];

const I_WORDS: [(&[u8], Symbol); 9] = [
    (b"icmp", Symbol::Icmp),
    (b"inttoptr", Symbol::IntToPtr),
    (b"inbounds", Symbol::InBounds),
    (b"insertelement", Symbol::VectorWord),
    (b"insertvalue", Symbol::AggregateWord),
    (b"inalloca", Symbol::ByValueWord),
    (b"invoke", Symbol::ExceptionWord),
    (b"indirectbr", Symbol::IndirectBranchWord),
    (b"ifunc", Symbol::AliasWord),
];

const L_WORDS: [(&[u8], Symbol); 4] = [
    (b"load", Symbol::Load),
    (b"label", Symbol::LabelWord),
    (b"lshr", Symbol::Lshr),
    (b"landingpad", Symbol::ExceptionWord),
];

const M_WORDS: [(&[u8], Symbol); 4] = [
    (b"musttail", Symbol::MustTail),
    (b"mul", Symbol::Mul),
    (b"module", Symbol::AssemblyWord),
    (b"metadata", Symbol::MetadataWord),
];

const N_WORDS: [(&[u8], Symbol); 7] = [
    (b"notail", Symbol::NoTail),
    (b"null", Symbol::Null),
    (b"nuw", Symbol::Nuw),
    (b"nsw", Symbol::Nsw),
    (b"nneg", Symbol::Nneg),
    (b"nusw", Symbol::Nusw),
    (b"ne", Symbol::Ne),
];

const O_WORDS: [(&[u8], Symbol); 2] = [(b"or", Symbol::Or), (b"opaque", Symbol::OpaqueWord)];

const P_WORDS: [(&[u8], Symbol); 7] = [
    (b"phi", Symbol::Phi),
    (b"ptr", Symbol::PtrType),
    (b"poison", Symbol::Poison),
    (b"ptrtoint", Symbol::PtrToInt),
    (b"ppc_fp128", Symbol::FloatingPointWord),
    (b"preallocated", Symbol::ByValueWord),
    (b"personality", Symbol::ExceptionWord),
];

const R_WORDS: [(&[u8], Symbol); 2] = [(b"ret", Symbol::Ret), (b"resume", Symbol::ExceptionWord)];

const S_WORDS: [(&[u8], Symbol); 18] = [
    (b"select", Symbol::Select),
    (b"store", Symbol::Store),
    (b"switch", Symbol::Switch),
    (b"sub", Symbol::Sub),
    (b"sdiv", Symbol::Sdiv),
    (b"srem", Symbol::Srem),
    (b"shl", Symbol::Shl),
    (b"sext", Symbol::Sext),
    (b"samesign", Symbol::SameSign),
    (b"sgt", Symbol::Sgt),
    (b"sge", Symbol::Sge),
    (b"slt", Symbol::Slt),
    (b"sle", Symbol::Sle),
    (b"source_filename", Symbol::SourceFilename),
    (b"section", Symbol::Section),
    (b"sitofp", Symbol::FloatingPointWord),
    (b"shufflevector", Symbol::VectorWord),
    (b"swifterror", Symbol::ByValueWord),
];

const T_WORDS: [(&[u8], Symbol); 8] = [
    (b"tail", Symbol::Tail),
    (b"to", Symbol::To),
    (b"true", Symbol::True),
    (b"trunc", Symbol::Trunc),
    (b"target", Symbol::Target),
    (b"triple", Symbol::Triple),
    (b"type", Symbol::TypeWord),
    (b"thread_local", Symbol::ThreadLocalWord),
];

const U_WORDS: [(&[u8], Symbol); 9] = [
    (b"unreachable", Symbol::Unreachable),
    (b"undef", Symbol::Undef),
    (b"udiv", Symbol::Udiv),
    (b"urem", Symbol::Urem),
    (b"ugt", Symbol::Ugt),
    (b"uge", Symbol::Uge),
    (b"ult", Symbol::Ult),
    (b"ule", Symbol::Ule),
    (b"uitofp", Symbol::FloatingPointWord),
];

const V_WORDS: [(&[u8], Symbol); 4] = [
    (b"void", Symbol::Void),
    (b"vscale", Symbol::VectorWord),
    (b"volatile", Symbol::VolatileWord),
    (b"va_arg", Symbol::VariableArgumentWord),
];

const X_WORDS: [(&[u8], Symbol); 3] = [
    (b"x", Symbol::X),
    (b"xor", Symbol::Xor),
    (b"x86_fp80", Symbol::FloatingPointWord),
];

const Z_WORDS: [(&[u8], Symbol); 2] = [
    (b"zeroinitializer", Symbol::ZeroInitializer),
    (b"zext", Symbol::Zext),
];

/// The signs of punctuation, each with its symbol.
pub const PUNCTUATION: [(&[u8], Symbol); 13] = [
    (b"(", Symbol::OpenParen),
    (b")", Symbol::CloseParen),
    (b"[", Symbol::OpenBracket),
    (b"]", Symbol::CloseBracket),
    (b"{", Symbol::OpenBrace),
    (b"}", Symbol::CloseBrace),
    (b"<", Symbol::Less),
    (b">", Symbol::Greater),
    (b",", Symbol::Comma),
    (b"=", Symbol::Equals),
    (b"*", Symbol::Star),
    (b"!", Symbol::Bang),
    (b"|", Symbol::Bar),
];

/// The words that begin with a byte, in the order of the definition.
pub fn words_with(first: u8) -> &'static [Keyword]
    ensures { rows_of result.now ≡ beginning first keywords }
{
    match first {
        b'a' => &A_WORDS,
        b'b' => &B_WORDS,
        b'c' => &C_WORDS,
        b'd' => &D_WORDS,
        b'e' => &E_WORDS,
        b'f' => &F_WORDS,
        b'g' => &G_WORDS,
        b'h' => &H_WORDS,
        b'i' => &I_WORDS,
        b'l' => &L_WORDS,
        b'm' => &M_WORDS,
        b'n' => &N_WORDS,
        b'o' => &O_WORDS,
        b'p' => &P_WORDS,
        b'r' => &R_WORDS,
        b's' => &S_WORDS,
        b't' => &T_WORDS,
        b'u' => &U_WORDS,
        b'v' => &V_WORDS,
        b'x' => &X_WORDS,
        b'z' => &Z_WORDS,
        _ => &[],
    }
}
