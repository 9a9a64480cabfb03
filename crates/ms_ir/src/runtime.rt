//! What marked calls reach: the functions of the runtime, which they alone reach, and externals that move bits, with names
//! and types (LLVM Language Reference, "Bit Manipulation Intrinsics").
ghost use Rattle.std.specs.Prelude.{◌≡◌, IfOk};
ghost use Rattle.ms_ir.specs.declared.syntax.Name.TheVariants as spelling;
ghost use Rattle.ms_ir.specs.declared.calls.RuntimeFn.TheVariants as called;
ghost use Rattle.ms_ir.specs.Names.{lookup, bit_moves, runtime_functions, runtime_name};
ghost use Rattle.ms_ir.specs.Signatures.{decl_signature, signature_eq, runtime_signature, runtime_declarations};
ghost use Rattle.ms_ir.specs.Rows.{row_signature};

use crate::calls::RuntimeFn;
use crate::rows::{ParamType, SignatureRow, declarations_of, named};
use crate::syntax::{Decl, Name, Ty};
use ms_bits::{BitMove, List, NoMemory};
use std::alloc::Global;

/// Each function that marked calls alone reach, in the order of the variants; above each row what its parameters are. Masks and
/// lengths have 64 bits; origins, sites and kinds of uses 32.
static RUNTIME_FUNCTIONS: [SignatureRow<RuntimeFn>; 13] = [
    // Mask, width of the word, its origin, kind of the use, part of what is used, site.
    SignatureRow {
        name: b"__msan_check",
        is: RuntimeFn::Check,
        ret: None,
        params: &[
            ParamType::Int(64),
            ParamType::Int(32),
            ParamType::Int(32),
            ParamType::Int(32),
            ParamType::Int(32),
            ParamType::Int(32),
        ],
    },
    // Address, how many bytes, kind of the use, site.
    SignatureRow {
        name: b"__msan_check_memory",
        is: RuntimeFn::CheckMemory,
        ret: None,
        params: &[
            ParamType::Ptr,
            ParamType::Int(64),
            ParamType::Int(32),
            ParamType::Int(32),
        ],
    },
    // Address, site.
    SignatureRow {
        name: b"__msan_check_string",
        is: RuntimeFn::CheckString,
        ret: None,
        params: &[ParamType::Ptr, ParamType::Int(32)],
    },
    // Mask.
    SignatureRow {
        name: b"__msan_blind",
        is: RuntimeFn::Blind,
        ret: None,
        params: &[ParamType::Int(64)],
    },
    // Address; the first byte and the one after the last, counted from there; origin.
    SignatureRow {
        name: b"__msan_poison",
        is: RuntimeFn::Poison,
        ret: None,
        params: &[
            ParamType::Ptr,
            ParamType::Int(64),
            ParamType::Int(64),
            ParamType::Int(32),
        ],
    },
    // Address, how many bytes.
    SignatureRow {
        name: b"__msan_unpoison",
        is: RuntimeFn::Unpoison,
        ret: None,
        params: &[ParamType::Ptr, ParamType::Int(64)],
    },
    // Address to copy to, address to copy from, how many bytes.
    SignatureRow {
        name: b"__msan_copy",
        is: RuntimeFn::Copy,
        ret: None,
        params: &[ParamType::Ptr, ParamType::Ptr, ParamType::Int(64)],
    },
    // Address, how many bytes, mask and origin of the byte, site.
    SignatureRow {
        name: b"__msan_fill",
        is: RuntimeFn::Fill,
        ret: None,
        params: &[
            ParamType::Ptr,
            ParamType::Int(64),
            ParamType::Int(64),
            ParamType::Int(32),
            ParamType::Int(32),
        ],
    },
    // Address, mask and origin of the value, site.
    SignatureRow {
        name: b"__msan_store_origin",
        is: RuntimeFn::StoreOrigin,
        ret: None,
        params: &[
            ParamType::Ptr,
            ParamType::Int(64),
            ParamType::Int(32),
            ParamType::Int(32),
        ],
    },
    // Address, mask of the value.
    SignatureRow {
        name: b"__msan_load_origin",
        is: RuntimeFn::LoadOrigin,
        ret: Some(ParamType::Int(32)),
        params: &[ParamType::Ptr, ParamType::Int(64)],
    },
    // Address.
    SignatureRow {
        name: b"__msan_size",
        is: RuntimeFn::Size,
        ret: Some(ParamType::Int(64)),
        params: &[ParamType::Ptr],
    },
    // Address that the join stored to, number of the fiber, answer of the join, site.
    SignatureRow {
        name: b"__msan_thread_result",
        is: RuntimeFn::ThreadResult,
        ret: None,
        params: &[
            ParamType::Ptr,
            ParamType::Int(64),
            ParamType::Int(32),
            ParamType::Int(32),
        ],
    },
    // Address of the format, number of the argument, the argument, site.
    SignatureRow {
        name: b"__msan_check_format",
        is: RuntimeFn::CheckFormat,
        ret: None,
        params: &[
            ParamType::Ptr,
            ParamType::Int(32),
            ParamType::Ptr,
            ParamType::Int(32),
        ],
    },
];

/// Each function that moves bits, at the place of its variant, with which the pass moves the bits of masks.
static BIT_MOVES: [SignatureRow<RuntimeFn>; 15] = [
    SignatureRow {
        name: b"llvm.bswap.i16",
        is: RuntimeFn::Move(BitMove::Bswap16),
        ret: Some(ParamType::Int(16)),
        params: &[ParamType::Int(16)],
    },
    SignatureRow {
        name: b"llvm.bswap.i32",
        is: RuntimeFn::Move(BitMove::Bswap32),
        ret: Some(ParamType::Int(32)),
        params: &[ParamType::Int(32)],
    },
    SignatureRow {
        name: b"llvm.bswap.i64",
        is: RuntimeFn::Move(BitMove::Bswap64),
        ret: Some(ParamType::Int(64)),
        params: &[ParamType::Int(64)],
    },
    SignatureRow {
        name: b"llvm.bitreverse.i8",
        is: RuntimeFn::Move(BitMove::Bitreverse8),
        ret: Some(ParamType::Int(8)),
        params: &[ParamType::Int(8)],
    },
    SignatureRow {
        name: b"llvm.bitreverse.i16",
        is: RuntimeFn::Move(BitMove::Bitreverse16),
        ret: Some(ParamType::Int(16)),
        params: &[ParamType::Int(16)],
    },
    SignatureRow {
        name: b"llvm.bitreverse.i32",
        is: RuntimeFn::Move(BitMove::Bitreverse32),
        ret: Some(ParamType::Int(32)),
        params: &[ParamType::Int(32)],
    },
    SignatureRow {
        name: b"llvm.bitreverse.i64",
        is: RuntimeFn::Move(BitMove::Bitreverse64),
        ret: Some(ParamType::Int(64)),
        params: &[ParamType::Int(64)],
    },
    SignatureRow {
        name: b"llvm.fshl.i8",
        is: RuntimeFn::Move(BitMove::Fshl8),
        ret: Some(ParamType::Int(8)),
        params: &[ParamType::Int(8), ParamType::Int(8), ParamType::Int(8)],
    },
    SignatureRow {
        name: b"llvm.fshl.i16",
        is: RuntimeFn::Move(BitMove::Fshl16),
        ret: Some(ParamType::Int(16)),
        params: &[ParamType::Int(16), ParamType::Int(16), ParamType::Int(16)],
    },
    SignatureRow {
        name: b"llvm.fshl.i32",
        is: RuntimeFn::Move(BitMove::Fshl32),
        ret: Some(ParamType::Int(32)),
        params: &[ParamType::Int(32), ParamType::Int(32), ParamType::Int(32)],
    },
    SignatureRow {
        name: b"llvm.fshl.i64",
        is: RuntimeFn::Move(BitMove::Fshl64),
        ret: Some(ParamType::Int(64)),
        params: &[ParamType::Int(64), ParamType::Int(64), ParamType::Int(64)],
    },
    SignatureRow {
        name: b"llvm.fshr.i8",
        is: RuntimeFn::Move(BitMove::Fshr8),
        ret: Some(ParamType::Int(8)),
        params: &[ParamType::Int(8), ParamType::Int(8), ParamType::Int(8)],
    },
    SignatureRow {
        name: b"llvm.fshr.i16",
        is: RuntimeFn::Move(BitMove::Fshr16),
        ret: Some(ParamType::Int(16)),
        params: &[ParamType::Int(16), ParamType::Int(16), ParamType::Int(16)],
    },
    SignatureRow {
        name: b"llvm.fshr.i32",
        is: RuntimeFn::Move(BitMove::Fshr32),
        ret: Some(ParamType::Int(32)),
        params: &[ParamType::Int(32), ParamType::Int(32), ParamType::Int(32)],
    },
    SignatureRow {
        name: b"llvm.fshr.i64",
        is: RuntimeFn::Move(BitMove::Fshr64),
        ret: Some(ParamType::Int(64)),
        params: &[ParamType::Int(64), ParamType::Int(64), ParamType::Int(64)],
    },
];

/// The function that moves bits with a text as its name, if there is one.
#[tactic(auto, unfolding(crate::specs::Names::bit_moves))]
fn move_spelled(text: &[u8]) -> Option<RuntimeFn>
    ensures { result ≡ lookup bit_moves (spelling.Text text.now) }
{
    named(&BIT_MOVES, text)
}

/// The row of a function that moves bits.
fn move_row(kind: BitMove) -> &'static SignatureRow<RuntimeFn>
    ensures name { spelling.Text result.now.name.now ≡ runtime_name (called.Move kind) }
    ensures types { row_signature result.now ≡ runtime_signature (called.Move kind) }
{
    &BIT_MOVES[kind as usize]
}

/// The row of a runtime function.
fn row_of(function: RuntimeFn) -> &'static SignatureRow<RuntimeFn>
    ensures name { spelling.Text result.now.name.now ≡ runtime_name function }
    ensures types { row_signature result.now ≡ runtime_signature function }
{
    match function {
        RuntimeFn::Check => &RUNTIME_FUNCTIONS[0],
        RuntimeFn::CheckMemory => &RUNTIME_FUNCTIONS[1],
        RuntimeFn::CheckString => &RUNTIME_FUNCTIONS[2],
        RuntimeFn::Blind => &RUNTIME_FUNCTIONS[3],
        RuntimeFn::Poison => &RUNTIME_FUNCTIONS[4],
        RuntimeFn::Unpoison => &RUNTIME_FUNCTIONS[5],
        RuntimeFn::Copy => &RUNTIME_FUNCTIONS[6],
        RuntimeFn::Fill => &RUNTIME_FUNCTIONS[7],
        RuntimeFn::StoreOrigin => &RUNTIME_FUNCTIONS[8],
        RuntimeFn::LoadOrigin => &RUNTIME_FUNCTIONS[9],
        RuntimeFn::Size => &RUNTIME_FUNCTIONS[10],
        RuntimeFn::ThreadResult => &RUNTIME_FUNCTIONS[11],
        RuntimeFn::CheckFormat => &RUNTIME_FUNCTIONS[12],
        RuntimeFn::Move(kind) => move_row(kind),
    }
}

impl RuntimeFn {
    /// What marked calls reach with a text as its name, if there is such a function.
    pub fn spelled(text: &[u8]) -> Option<RuntimeFn>
        ensures { result ≡ lookup runtime_functions (spelling.Text text.now) }
    {
        match named(&RUNTIME_FUNCTIONS, text) {
            Some(function) => Some(function),
            None => move_spelled(text),
        }
    }

    /// What marked calls reach with a name, if there is such a function.
    pub fn named(name: &Name) -> Option<RuntimeFn>
        ensures { result ≡ lookup runtime_functions name.now }
    {
        match name {
            Name::Number(_) => None,
            Name::Text(text) => RuntimeFn::spelled(text.as_slice()),
        }
    }

    /// Its name.
    pub fn name(self) -> &'static [u8]
        ensures { spelling.Text result.now ≡ runtime_name self }
    {
        row_of(self).name
    }

    /// What it returns; none is `void`.
    pub fn result_type(self) -> Option<Ty>
        ensures { result ≡ (runtime_signature self).ret }
    {
        row_of(self).result_type()
    }

    /// Whether a declaration has its types.
    pub fn has_types_of(self, decl: &Decl) -> bool
        ensures { result ≡ signature_eq (decl_signature decl.now) (runtime_signature self) }
    {
        row_of(self).has_types_of(decl)
    }
}

/// The functions that marked calls alone reach, as an instrumented module declares them.
pub fn runtime_declarations(alloc: Global) -> Result<List<Decl>, NoMemory>
    ensures { IfOk result (λ ds. ds ≡ runtime_declarations) }
{
    declarations_of(alloc, &RUNTIME_FUNCTIONS)
}
