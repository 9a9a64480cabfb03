//! A module of LLVM assembly as data (LLVM Language Reference, "High Level Structure", "Type System" and
//! "Instruction Reference"), for the integer and pointer part that this repository reads.

use ms_bits::{BinOp, Boxed, Bytes, CastOp, Flags, List, Pred, SmallBytes};

/// The name of a value, a basic block, a type, a function or a global ("Identifiers"), without its `@` or `%`.
#[derive(Debug, PartialEq, Eq, PartialOrd, Ord)]
pub enum Name {
    /// An unnamed value or block of a function: `%7`.
    Number(u32),
    /// The decoded bytes of a name: `%x`, `@main`, `%"a b"`.
    Text(SmallBytes),
}

/// A type ("Type System"). `void` is none: a function without a result has no type there.
#[derive(Drop)]
pub enum Ty {
    /// `iN` by its width in bits, from 1 to 64.
    Int(u8),
    /// `ptr` of address space 0: a word of 64 bits.
    Ptr,
    /// The number of items, and the type of each.
    Array(u64, Boxed<Ty>),
    /// Whether it is packed, that is, laid out without padding, and the fields' types in order.
    Struct(bool, List<Ty>),
    /// A type by the name that the module defines: `%pair`.
    Named(Name),
}

/// What an instruction works on. Its type stands beside it in the instruction ("Constants", "Undefined
/// Values", "Poison Values").
pub enum Operand {
    /// An integer constant of type `iN`, kept modulo 2 to the power of N; `true` is 1.
    Int(u64),
    /// The null pointer, address 0.
    Null,
    /// `undef`: bits that are not set.
    Undef,
    /// `poison`.
    Poison,
    /// A parameter or the result of an instruction of the same function.
    Local(Name),
    /// The address of a global.
    Global(Name),
    /// A constant `getelementptr`, within which others may stand ("Constant Expressions"): the global that the
    /// innermost begins at, and for each, the outermost first, the type that is stepped through and the indices
    /// as integers with their types.
    Offset(Boxed<Name>, List<(Ty, List<(Ty, u64)>)>),
}

/// The initialiser of a global ("Global Variables", "Complex Constants").
#[derive(Drop)]
pub enum Init {
    /// A constant of type `iN` or `ptr`.
    Value(Operand),
    /// `zeroinitializer`, of any type.
    Zero,
    /// The items of an array with their types.
    Array(List<(Ty, Init)>),
    /// Whether the struct is packed, and its fields with their types.
    Struct(bool, List<(Ty, Init)>),
    /// `c"..."`, an array of `i8`: its decoded bytes.
    Text(Bytes),
}

/// What an instruction does, and on what ("Instruction Reference"). Operands stand in written order.
#[derive(Drop)]
pub enum Op {
    /// `op ty a, b` ("Binary Operations", "Bitwise Binary Operations"); `ty` is that of both operands and
    /// of the result.
    Binary {
        op: BinOp,
        flags: Flags,
        ty: Ty,
        a: Operand,
        b: Operand,
    },
    /// `icmp pred ty a, b`; the result is an `i1`.
    Icmp {
        pred: Pred,
        flags: Flags,
        ty: Ty,
        a: Operand,
        b: Operand,
    },
    /// `op from a to to` ("Conversion Operations").
    Cast {
        op: CastOp,
        flags: Flags,
        from: Ty,
        a: Operand,
        to: Ty,
    },
    /// `select i1 cond, ty a, ty b`: `a` where `cond` is 1.
    Select {
        cond: Operand,
        ty: Ty,
        a: Operand,
        b: Operand,
    },
    /// `freeze ty a`.
    Freeze {
        ty: Ty,
        a: Operand,
    },
    /// `phi ty [value, block], ..`: each edge is a value with the block that control comes from.
    Phi {
        ty: Ty,
        edges: List<(Operand, Name)>,
    },
    /// `alloca ty, count_ty count`. One that is written without a count has the count `i32 1`.
    Alloca {
        /// The type of one item.
        ty: Ty,
        /// The integer type of the count.
        count_ty: Ty,
        /// How many items, read as unsigned.
        count: Operand,
    },
    /// `load ty, ptr addr`.
    Load {
        ty: Ty,
        addr: Operand,
    },
    /// `store ty value, ptr addr`.
    Store {
        ty: Ty,
        value: Operand,
        addr: Operand,
    },
    /// `getelementptr ty, ptr base, index, ..`: each index is an integer type with its operand, read as
    /// signed.
    Gep {
        ty: Ty,
        base: Operand,
        indices: List<(Ty, Operand)>,
    },
    /// `call ret @callee(args)`: no `ret` is `void`. The callee is always a function's name.
    Call {
        ret: Option<Ty>,
        callee: Name,
        args: List<(Ty, Operand)>,
    },
    /// `br label %to`.
    Br {
        to: Name,
    },
    /// `br i1 cond, label %yes, label %no`.
    CondBr {
        cond: Operand,
        yes: Name,
        no: Name,
    },
    /// `switch ty value, label %other [ty case, label %block ..]`: the cases are kept modulo 2 to the
    /// power of the width, each with its block; `other` is the default.
    Switch {
        ty: Ty,
        value: Operand,
        other: Name,
        cases: List<(u64, Name)>,
    },
    /// `ret ty value`, or `ret void`.
    Ret {
        value: Option<(Ty, Operand)>,
    },
    /// `unreachable`.
    Unreachable,
}

/// An instruction.
pub struct Inst {
    pub op: Op,
    /// The name that its result is bound to; none for a `store`, a terminator or a call without a result.
    pub result: Option<Name>,
    /// Whether it carries the metadata `!nosanitize`: it was inserted by the pass. The sites of a module are
    /// its unmarked instructions, counted from 1 in written order through all functions.
    pub marked: bool,
}

/// A basic block ("Functions"): phis first, and one terminator, which is the last.
pub struct Block {
    /// Its label.
    pub name: Name,
    pub insts: List<Inst>,
}

/// A function definition.
pub struct Func {
    pub name: Name,
    /// The type of the result; none is `void`.
    pub ret: Option<Ty>,
    /// The type and the name of each parameter.
    pub params: List<(Ty, Name)>,
    /// The first is the entry block.
    pub blocks: List<Block>,
}

/// The declaration of a function whose body stands elsewhere: an external or a function of the runtime.
pub struct Decl {
    pub name: Name,
    /// The type of the result; none is `void`.
    pub ret: Option<Ty>,
    /// The types of the parameters.
    pub params: List<Ty>,
}

/// A global variable ("Global Variables").
pub struct GlobalVar {
    pub name: Name,
    /// `constant` and not `global`. It is written out again, and has no meaning in a run.
    pub constant: bool,
    pub ty: Ty,
    pub init: Init,
}

/// A module ("Module Structure"): its parts, each kind in written order.
#[derive(Drop)]
pub struct Module {
    /// The named types ("Structure Type") with what they stand for.
    pub types: List<(Name, Ty)>,
    pub globals: List<GlobalVar>,
    pub decls: List<Decl>,
    pub funcs: List<Func>,
}

// Drops are written by hand here: the prover then takes the end of such a value as one call. A derived one is unfolded, field by
// field, at each place where a function may end with the value alive.

impl Drop for Name {
    fn drop(self) {
        match self {
            Name::Number(_) | Name::Text(_) => (),
        }
    }
}

impl Drop for Operand {
    fn drop(self) {
        match self {
            Operand::Int(_) | Operand::Null | Operand::Undef | Operand::Poison => (),
            Operand::Local(_) | Operand::Global(_) | Operand::Offset(_, _) => (),
        }
    }
}

impl Drop for Inst {
    fn drop(self) {
        let Inst {
            op: _,
            result: _,
            marked: _,
        } = self;
    }
}

impl Drop for Block {
    fn drop(self) {
        let Block { name: _, insts: _ } = self;
    }
}

impl Drop for Func {
    fn drop(self) {
        let Func {
            name: _,
            ret: _,
            params: _,
            blocks: _,
        } = self;
    }
}

impl Drop for Decl {
    fn drop(self) {
        let Decl {
            name: _,
            ret: _,
            params: _,
        } = self;
    }
}

impl Drop for GlobalVar {
    fn drop(self) {
        let GlobalVar {
            name: _,
            constant: _,
            ty: _,
            init: _,
        } = self;
    }
}
