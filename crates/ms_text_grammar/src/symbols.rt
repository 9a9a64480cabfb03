//! The kinds of symbol that a token is to the grammar.

/// What a token is to the grammar. Each word that has a meaning of its own is a symbol, and so is each group of words that
/// mean the same to it. `symbol_of` of the definitions says which symbol a token is.
#[derive(Clone, Copy, PartialEq, Eq)]
pub enum Symbol {
    /// The end of the text.
    EndOfText,
    /// `(`.
    OpenParen,
    /// `)`.
    CloseParen,
    /// `[`.
    OpenBracket,
    /// `]`.
    CloseBracket,
    /// `{`.
    OpenBrace,
    /// `}`.
    CloseBrace,
    /// `<`.
    Less,
    /// `>`.
    Greater,
    /// `,`.
    Comma,
    /// `=`.
    Equals,
    /// `*`.
    Star,
    /// `!` alone.
    Bang,
    /// `|`.
    Bar,
    /// A block's name with its colon, as `entry:`.
    Label,
    /// A label of digits alone, as `5:`.
    NumberedLabel,
    /// A string of bytes for an array, as `c"ok\00"`.
    CText,
    /// A string.
    Str,
    /// A decimal number with or without a minus sign.
    Number,
    /// A name that begins with `@`.
    Global,
    /// A name that begins with `%`.
    Local,
    /// `%` and digits alone.
    NumberedLocal,
    /// A name of metadata, as `!0` or `!dbg`.
    Meta,
    /// `!nosanitize`, which marks an inserted instruction.
    NoSanitize,
    /// A group of attributes, as `#0`.
    Group,
    /// A group that begins with `dbg`, as `#dbg_value`.
    DebugGroup,
    /// `...`.
    Dots,
    /// Anything else that begins with a digit, with or without a minus sign in front.
    FloatLiteral,
    /// Anything else that begins with `$`.
    DollarName,
    /// Any other run of name bytes that is no word.
    Other,
    /// `i` and a number from 1 to 64.
    IntType,
    /// `i` and a number above 64.
    WideIntType,
    /// `ptr`.
    PtrType,
    /// `void`.
    Void,
    /// `source_filename`.
    SourceFilename,
    /// `target`.
    Target,
    /// `datalayout`.
    DataLayout,
    /// `triple`.
    Triple,
    /// `attributes`.
    Attributes,
    /// `distinct`.
    Distinct,
    /// `type`.
    TypeWord,
    /// `global`.
    GlobalWord,
    /// `constant`.
    ConstantWord,
    /// `section`.
    Section,
    /// `align`.
    Align,
    /// `declare`.
    Declare,
    /// `define`.
    Define,
    /// `x`.
    X,
    /// `to`.
    To,
    /// `label`.
    LabelWord,
    /// `zeroinitializer`.
    ZeroInitializer,
    /// `true`.
    True,
    /// `false`.
    False,
    /// `null`.
    Null,
    /// `undef`.
    Undef,
    /// `poison`.
    Poison,
    /// `phi`.
    Phi,
    /// `icmp`.
    Icmp,
    /// `select`.
    Select,
    /// `freeze`.
    Freeze,
    /// `alloca`.
    Alloca,
    /// `load`.
    Load,
    /// `store`.
    Store,
    /// `getelementptr`.
    GetElementPtr,
    /// `tail`.
    Tail,
    /// `musttail`.
    MustTail,
    /// `notail`.
    NoTail,
    /// `call`.
    Call,
    /// `br`.
    Br,
    /// `switch`.
    Switch,
    /// `ret`.
    Ret,
    /// `unreachable`.
    Unreachable,
    /// `add`.
    Add,
    /// `sub`.
    Sub,
    /// `mul`.
    Mul,
    /// `udiv`.
    Udiv,
    /// `sdiv`.
    Sdiv,
    /// `urem`.
    Urem,
    /// `srem`.
    Srem,
    /// `shl`.
    Shl,
    /// `lshr`.
    Lshr,
    /// `ashr`.
    Ashr,
    /// `and`.
    And,
    /// `or`.
    Or,
    /// `xor`.
    Xor,
    /// `trunc`.
    Trunc,
    /// `zext`.
    Zext,
    /// `sext`.
    Sext,
    /// `ptrtoint`.
    PtrToInt,
    /// `inttoptr`.
    IntToPtr,
    /// `bitcast`.
    Bitcast,
    /// `nuw`.
    Nuw,
    /// `nsw`.
    Nsw,
    /// `exact`.
    Exact,
    /// `disjoint`.
    Disjoint,
    /// `nneg`.
    Nneg,
    /// `samesign`.
    SameSign,
    /// `inbounds`.
    InBounds,
    /// `nusw`.
    Nusw,
    /// `eq`.
    Eq,
    /// `ne`.
    Ne,
    /// `ugt`.
    Ugt,
    /// `uge`.
    Uge,
    /// `ult`.
    Ult,
    /// `ule`.
    Ule,
    /// `sgt`.
    Sgt,
    /// `sge`.
    Sge,
    /// `slt`.
    Slt,
    /// `sle`.
    Sle,
    /// A type or an operation of floating point, as `double` or `fadd`.
    FloatingPointWord,
    /// An operation on vectors, or `vscale`.
    VectorWord,
    /// `addrspace`, `addrspacecast`.
    AddressSpaceWord,
    /// `thread_local`.
    ThreadLocalWord,
    /// `insertvalue`, `extractvalue`.
    AggregateWord,
    /// `byval`, `inalloca`, `preallocated`, `byref`, `swifterror`.
    ByValueWord,
    /// `invoke`, `landingpad` and their kin.
    ExceptionWord,
    /// `asm`, `module`.
    AssemblyWord,
    /// `indirectbr`, `blockaddress`.
    IndirectBranchWord,
    /// `atomic`, `cmpxchg`, `atomicrmw`, `fence`.
    AtomicWord,
    /// `volatile`.
    VolatileWord,
    /// `va_arg`.
    VariableArgumentWord,
    /// `alias`, `ifunc`.
    AliasWord,
    /// `comdat`.
    ComdatWord,
    /// `external`, `extern_weak`.
    ExternalWord,
    /// `opaque`.
    OpaqueWord,
    /// `metadata`.
    MetadataWord,
    /// Any other word: an attribute, or a word of linkage.
    PlainWord,
}
