//! The externals: what a module may call without defining it, with names and types (C library; LLVM Language Reference,
//! "Standard C/C++ Library Intrinsics", "Memory Use Markers" and "General Intrinsics").
ghost use Rattle.std.specs.Prelude.{◌≡◌};
ghost use Rattle.ms_ir.specs.declared.syntax.Name.TheVariants as spelling;
ghost use Rattle.ms_ir.specs.Names.{lookup, externals};
ghost use Rattle.ms_ir.specs.Signatures.{decl_signature, signature_eq, external_signature, is_thread_call};

use crate::calls::External;
use crate::rows::{ParamType, SignatureRow, named};
use crate::syntax::{Decl, Name};
use crate::word_externals;

/// Each external that is no function of whole words, in the order of the variants. Parameters are those of the C function or of
/// LLVM's, in its order; the `i1` of `llvm.memcpy`, `llvm.memmove` and `llvm.memset` is `volatile`.
static EXTERNALS: [SignatureRow<External>; 28] = [
    SignatureRow {
        name: b"malloc",
        is: External::Malloc,
        ret: Some(ParamType::Ptr),
        params: &[ParamType::Int(64)],
    },
    SignatureRow {
        name: b"calloc",
        is: External::Calloc,
        ret: Some(ParamType::Ptr),
        params: &[ParamType::Int(64), ParamType::Int(64)],
    },
    SignatureRow {
        name: b"realloc",
        is: External::Realloc,
        ret: Some(ParamType::Ptr),
        params: &[ParamType::Ptr, ParamType::Int(64)],
    },
    SignatureRow {
        name: b"free",
        is: External::Free,
        ret: None,
        params: &[ParamType::Ptr],
    },
    SignatureRow {
        name: b"memcpy",
        is: External::Memcpy,
        ret: Some(ParamType::Ptr),
        params: &[ParamType::Ptr, ParamType::Ptr, ParamType::Int(64)],
    },
    SignatureRow {
        name: b"memmove",
        is: External::Memmove,
        ret: Some(ParamType::Ptr),
        params: &[ParamType::Ptr, ParamType::Ptr, ParamType::Int(64)],
    },
    SignatureRow {
        name: b"memset",
        is: External::Memset,
        ret: Some(ParamType::Ptr),
        params: &[ParamType::Ptr, ParamType::Int(32), ParamType::Int(64)],
    },
    SignatureRow {
        name: b"memcmp",
        is: External::Memcmp,
        ret: Some(ParamType::Int(32)),
        params: &[ParamType::Ptr, ParamType::Ptr, ParamType::Int(64)],
    },
    SignatureRow {
        name: b"strlen",
        is: External::Strlen,
        ret: Some(ParamType::Int(64)),
        params: &[ParamType::Ptr],
    },
    SignatureRow {
        name: b"putchar",
        is: External::Putchar,
        ret: Some(ParamType::Int(32)),
        params: &[ParamType::Int(32)],
    },
    SignatureRow {
        name: b"puts",
        is: External::Puts,
        ret: Some(ParamType::Int(32)),
        params: &[ParamType::Ptr],
    },
    SignatureRow {
        name: b"getchar",
        is: External::Getchar,
        ret: Some(ParamType::Int(32)),
        params: &[],
    },
    SignatureRow {
        name: b"read",
        is: External::Read,
        ret: Some(ParamType::Int(64)),
        params: &[ParamType::Int(32), ParamType::Ptr, ParamType::Int(64)],
    },
    SignatureRow {
        name: b"write",
        is: External::Write,
        ret: Some(ParamType::Int(64)),
        params: &[ParamType::Int(32), ParamType::Ptr, ParamType::Int(64)],
    },
    SignatureRow {
        name: b"exit",
        is: External::Exit,
        ret: None,
        params: &[ParamType::Int(32)],
    },
    SignatureRow {
        name: b"abort",
        is: External::Abort,
        ret: None,
        params: &[],
    },
    SignatureRow {
        name: b"llvm.memcpy.p0.p0.i64",
        is: External::LlvmMemcpy,
        ret: None,
        params: &[
            ParamType::Ptr,
            ParamType::Ptr,
            ParamType::Int(64),
            ParamType::Int(1),
        ],
    },
    SignatureRow {
        name: b"llvm.memmove.p0.p0.i64",
        is: External::LlvmMemmove,
        ret: None,
        params: &[
            ParamType::Ptr,
            ParamType::Ptr,
            ParamType::Int(64),
            ParamType::Int(1),
        ],
    },
    SignatureRow {
        name: b"llvm.memset.p0.i64",
        is: External::LlvmMemset,
        ret: None,
        params: &[
            ParamType::Ptr,
            ParamType::Int(8),
            ParamType::Int(64),
            ParamType::Int(1),
        ],
    },
    SignatureRow {
        name: b"llvm.lifetime.start.p0",
        is: External::LifetimeStart,
        ret: None,
        params: &[ParamType::Int(64), ParamType::Ptr],
    },
    SignatureRow {
        name: b"llvm.lifetime.end.p0",
        is: External::LifetimeEnd,
        ret: None,
        params: &[ParamType::Int(64), ParamType::Ptr],
    },
    SignatureRow {
        name: b"printf",
        is: External::Printf,
        ret: Some(ParamType::Int(32)),
        params: &[ParamType::Ptr],
    },
    SignatureRow {
        name: b"llvm.trap",
        is: External::LlvmTrap,
        ret: None,
        params: &[],
    },
    SignatureRow {
        name: b"llvm.assume",
        is: External::LlvmAssume,
        ret: None,
        params: &[ParamType::Int(1)],
    },
    SignatureRow {
        name: b"llvm.objectsize.i64.p0",
        is: External::LlvmObjectSize,
        ret: Some(ParamType::Int(64)),
        params: &[
            ParamType::Ptr,
            ParamType::Int(1),
            ParamType::Int(1),
            ParamType::Int(1),
        ],
    },
    SignatureRow {
        name: b"pthread_create",
        is: External::PthreadCreate,
        ret: Some(ParamType::Int(32)),
        params: &[
            ParamType::Ptr,
            ParamType::Ptr,
            ParamType::Ptr,
            ParamType::Ptr,
        ],
    },
    SignatureRow {
        name: b"pthread_join",
        is: External::PthreadJoin,
        ret: Some(ParamType::Int(32)),
        params: &[ParamType::Int(64), ParamType::Ptr],
    },
    SignatureRow {
        name: b"sched_yield",
        is: External::SchedYield,
        ret: Some(ParamType::Int(32)),
        params: &[],
    },
];

impl External {
    /// The external with a text as its name, if there is one.
    pub fn spelled(text: &[u8]) -> Option<External>
        ensures { result ≡ lookup externals (spelling.Text text.now) }
    {
        match named(&EXTERNALS, text) {
            Some(external) => Some(external),
            None => word_externals::spelled(text),
        }
    }

    /// The external with a name, if there is one.
    pub fn named(name: &Name) -> Option<External>
        ensures { result ≡ lookup externals name.now }
    {
        match name {
            Name::Number(_) => None,
            Name::Text(text) => External::spelled(text.as_slice()),
        }
    }

    /// Whether it is a thread call, which a run of one fiber doesn't know.
    pub fn is_thread_call(self) -> bool
        ensures { result ≡ is_thread_call self }
    {
        matches!(
            self,
            External::PthreadCreate | External::PthreadJoin | External::SchedYield
        )
    }

    /// Whether a declaration has its types, which are those of its row.
    pub fn has_types_of(self, decl: &Decl) -> bool
        ensures { result ≡ signature_eq (decl_signature decl.now) (external_signature self) }
    {
        match self {
            External::Malloc => EXTERNALS[0].has_types_of(decl),
            External::Calloc => EXTERNALS[1].has_types_of(decl),
            External::Realloc => EXTERNALS[2].has_types_of(decl),
            External::Free => EXTERNALS[3].has_types_of(decl),
            External::Memcpy => EXTERNALS[4].has_types_of(decl),
            External::Memmove => EXTERNALS[5].has_types_of(decl),
            External::Memset => EXTERNALS[6].has_types_of(decl),
            External::Memcmp => EXTERNALS[7].has_types_of(decl),
            External::Strlen => EXTERNALS[8].has_types_of(decl),
            External::Putchar => EXTERNALS[9].has_types_of(decl),
            External::Puts => EXTERNALS[10].has_types_of(decl),
            External::Getchar => EXTERNALS[11].has_types_of(decl),
            External::Read => EXTERNALS[12].has_types_of(decl),
            External::Write => EXTERNALS[13].has_types_of(decl),
            External::Exit => EXTERNALS[14].has_types_of(decl),
            External::Abort => EXTERNALS[15].has_types_of(decl),
            External::LlvmMemcpy => EXTERNALS[16].has_types_of(decl),
            External::LlvmMemmove => EXTERNALS[17].has_types_of(decl),
            External::LlvmMemset => EXTERNALS[18].has_types_of(decl),
            External::LifetimeStart => EXTERNALS[19].has_types_of(decl),
            External::LifetimeEnd => EXTERNALS[20].has_types_of(decl),
            External::Printf => EXTERNALS[21].has_types_of(decl),
            External::LlvmTrap => EXTERNALS[22].has_types_of(decl),
            External::LlvmAssume => EXTERNALS[23].has_types_of(decl),
            External::LlvmObjectSize => EXTERNALS[24].has_types_of(decl),
            External::PthreadCreate => EXTERNALS[25].has_types_of(decl),
            External::PthreadJoin => EXTERNALS[26].has_types_of(decl),
            External::SchedYield => EXTERNALS[27].has_types_of(decl),
            External::Word(function, width) => word_externals::has_types_of(function, width, decl),
        }
    }
}
