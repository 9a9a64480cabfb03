//! What a module reaches without defining it: externals, functions of the runtime and slots.

use ms_bits::{BitMove, WordFn, WordWidth};

/// The externals, functions of the C library and intrinsics of LLVM that the interpreter knows.
#[derive(Clone, Copy, Debug, PartialEq, Eq)]
pub enum External {
    /// `malloc`.
    Malloc,
    /// `calloc`.
    Calloc,
    /// `realloc`.
    Realloc,
    /// `free`.
    Free,
    /// `memcpy`.
    Memcpy,
    /// `memmove`.
    Memmove,
    /// `memset`.
    Memset,
    /// `memcmp`.
    Memcmp,
    /// `strlen`.
    Strlen,
    /// `putchar`.
    Putchar,
    /// `puts`.
    Puts,
    /// `getchar`.
    Getchar,
    /// `read`.
    Read,
    /// `write`.
    Write,
    /// `exit`.
    Exit,
    /// `abort`.
    Abort,
    /// `llvm.memcpy.p0.p0.i64` ("Standard C/C++ Library Intrinsics").
    LlvmMemcpy,
    /// `llvm.memmove.p0.p0.i64`.
    LlvmMemmove,
    /// `llvm.memset.p0.i64`.
    LlvmMemset,
    /// `llvm.lifetime.start.p0` ("Memory Use Markers").
    LifetimeStart,
    /// `llvm.lifetime.end.p0`.
    LifetimeEnd,
    /// `printf`.
    Printf,
    /// `llvm.trap`: a trap, as `abort` ("General Intrinsics").
    LlvmTrap,
    /// `llvm.assume`: what it is given must be true.
    LlvmAssume,
    /// `llvm.objectsize.i64.p0`, to which no size is known.
    LlvmObjectSize,
    /// `pthread_create`: makes a fiber.
    PthreadCreate,
    /// `pthread_join`: waits for a fiber's end.
    PthreadJoin,
    /// `sched_yield`: lets other fibers go on.
    SchedYield,
    /// `llvm.NAME.iN`, a function of whole words ("Bit Manipulation Intrinsics", "Saturation Arithmetic Intrinsics").
    Word(WordFn, WordWidth),
}

/// What inserted instructions call: the runtime functions, which they alone call, and externals that move bits.
#[derive(Clone, Copy, Debug, PartialEq, Eq)]
pub enum RuntimeFn {
    /// `__msan_check`: a report where a mask is not 0.
    Check,
    /// `__msan_check_memory`: a report of the first poisoned byte of a range.
    CheckMemory,
    /// `__msan_check_string`: a report of the first poisoned byte of a text that a zero byte ends.
    CheckString,
    /// `__msan_blind`: counts a blind use where a mask is not 0.
    Blind,
    /// `__msan_poison`: bytes become uninitialised, with an origin.
    Poison,
    /// `__msan_unpoison`: bytes become initialised.
    Unpoison,
    /// `__msan_copy`: copies shadow and origins.
    Copy,
    /// `__msan_fill`: bytes get the shadow of one byte, with a chained origin.
    Fill,
    /// `__msan_store_origin`: the chained origin of a stored value.
    StoreOrigin,
    /// `__msan_load_origin`: the origin of a loaded value.
    LoadOrigin,
    /// `__msan_size`: the size of a live heap block.
    Size,
    /// `__msan_thread_result`: shadow and origin of the word that a fiber answered, where a join stored it.
    ThreadResult,
    /// `__msan_check_format`: checks the string at an argument of `printf`, where its format asks for one.
    CheckFormat,
    /// `llvm.NAME.iN`, which gives the mask of what it gives ("Bit Manipulation Intrinsics").
    Move(BitMove),
}

/// The slots, globals that hand masks and origins over at calls.
#[derive(Clone, Copy, Debug, PartialEq, Eq)]
pub enum Slot {
    /// `__msan_param_tls`: the masks of arguments, 8 bytes each.
    ParamMasks,
    /// `__msan_param_origin_tls`: the origins of arguments, 4 bytes each.
    ParamOrigins,
    /// `__msan_retval_tls`: the mask of a result.
    RetvalMask,
    /// `__msan_retval_origin_tls`: the origin of a result.
    RetvalOrigin,
}
