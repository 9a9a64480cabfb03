//! Writes what instructions do (LLVM Language Reference, "Instruction Reference"), up to what is attached.
ghost use Rattle.std.specs.Prelude.{◌≡◌, ◌&&◌, Bool, [], ◌∷◌, ◌++◌, IfOk, codes, flat_map, map};
ghost use Rattle.ms_text_grammar.specs.Types.{int_width, is_width};
ghost use Rattle.ms_text_grammar.specs.Insts.{is_i32 as is_i32_result, names_printf as names_printf_of};
ghost use Rattle.ms_text_grammar.specs.LayoutInsts.{binary_word as binary_word_of, cast_word as cast_word_of, predicate_text, flag_tokens, address_tokens, target_tokens, bit_tokens, edge_tokens, case_tokens, is_one as is_one_of, count_tokens, callee_type_tokens, returned_tokens, op_tokens};
ghost use Rattle.ms_text_grammar.specs.{LayoutNames.{global_token}, LayoutPieces.{after_commas, enclosed, sign, with_commas, word}};
ghost use Rattle.ms_text_grammar.specs.{LayoutTypes.{result_tokens, type_tokens}, LayoutValues.{pair_tokens, typed_tokens}};
ghost use Rattle.ms_write.specs.Kinds.{IsComputation, IsAccess, IsTerminator};
ghost use Rattle.ms_write_values.specs.{Parts.{two_tokens}, Sheets.{put}};

use ms_bits::{BinOp, CastOp, Flags, NoMemory, Pred};
use ms_ir::{Name, Op, Operand, Ty, width_of};
use ms_write_values::{Writer, binary_word, cast_word, predicate_word};

/// Whether a type is `i32`.
fn is_i32(ty: &Ty) -> bool
    ensures { result ≡ is_width 32 (int_width ty.now) }
{
    match ty {
        Ty::Int(width) => *width == 32,
        _ => false,
    }
}

/// Whether a function's result is an `i32`.
pub fn gives_i32(ret: &Option<Ty>) -> bool
    ensures { result ≡ is_i32_result ret.now }
{
    match ret {
        None => false,
        Some(ty) => is_i32(ty),
    }
}

/// Whether a name is `printf`.
pub fn names_printf(name: &Name) -> bool
    ensures { result ≡ names_printf_of name.now }
{
    match name {
        Name::Number(_) => false,
        Name::Text(text) => text.as_slice() == b"printf".as_slice(),
    }
}

/// Whether an operand is the number 1.
fn is_one(operand: &Operand) -> bool
    ensures { result ≡ is_one_of operand.now }
{
    match operand {
        Operand::Int(value) => *value == 1,
        _ => false,
    }
}

/// Writes an address after `ptr`.
fn write_address(writer: &mut Writer, address: &Operand) -> Result<(), NoMemory>
    ensures { IfOk result (λ _. writer.new ≡ put writer.old (address_tokens address.now)) }
{
    let ty = Ty::Ptr;
    writer.typed(&ty, address)
}

/// Writes a bit after its type.
fn write_bit(writer: &mut Writer, bit: &Operand) -> Result<(), NoMemory>
    ensures { IfOk result (λ _. writer.new ≡ put writer.old (bit_tokens bit.now)) }
{
    let ty = Ty::Int(1);
    writer.typed(&ty, bit)
}

/// Writes `label` and the name of a block.
fn write_target(writer: &mut Writer, to: &Name) -> Result<(), NoMemory>
    ensures { IfOk result (λ _. writer.new ≡ put writer.old (target_tokens to.now)) }
{
    writer.token(b"label")?;
    writer.local(to)
}

/// Writes a binary operation.
#[tactic(auto, using(ms_write_values::proofs::Puts::put_append))]
fn write_binary(
    writer: &mut Writer,
    op: BinOp,
    flags: Flags,
    ty: &Ty,
    a: &Operand,
    b: &Operand,
) -> Result<(), NoMemory>
    ensures { IfOk result (λ _. writer.new ≡ put writer.old (word (binary_word_of op) ∷ (flag_tokens flags ++ two_tokens ty.now a.now b.now))) }
{
    writer.token(binary_word(op))?;
    writer.flags(flags)?;
    writer.two(ty, a, b)
}

/// Writes an `icmp`.
#[tactic(auto, using(ms_write_values::proofs::Puts::put_append))]
fn write_icmp(
    writer: &mut Writer,
    pred: Pred,
    flags: Flags,
    ty: &Ty,
    a: &Operand,
    b: &Operand,
) -> Result<(), NoMemory>
    ensures { IfOk result (λ _. writer.new ≡ put writer.old (word (codes "icmp") ∷ (flag_tokens flags ++ word (predicate_text pred) ∷ two_tokens ty.now a.now b.now))) }
{
    writer.token(b"icmp")?;
    writer.flags(flags)?;
    writer.token(predicate_word(pred))?;
    writer.two(ty, a, b)
}

/// Writes a cast.
#[tactic(auto, using(ms_write_values::proofs::Puts::put_append))]
fn write_cast(
    writer: &mut Writer,
    op: CastOp,
    flags: Flags,
    from: &Ty,
    a: &Operand,
    to: &Ty,
) -> Result<(), NoMemory>
    ensures { IfOk result (λ _. writer.new ≡ put writer.old (word (cast_word_of op) ∷ (flag_tokens flags ++ (typed_tokens from.now a.now ++ word (codes "to") ∷ type_tokens to.now)))) }
{
    writer.token(cast_word(op))?;
    writer.flags(flags)?;
    writer.typed(from, a)?;
    writer.token(b"to")?;
    writer.ty(to)
}

/// Writes a `select`.
#[tactic(auto, using(ms_write_values::proofs::Puts::put_append))]
fn write_select(
    writer: &mut Writer,
    cond: &Operand,
    ty: &Ty,
    a: &Operand,
    b: &Operand,
) -> Result<(), NoMemory>
    ensures { IfOk result (λ _. writer.new ≡ put writer.old (word (codes "select") ∷ with_commas (bit_tokens cond.now ∷ typed_tokens ty.now a.now ∷ typed_tokens ty.now b.now ∷ []))) }
{
    writer.token(b"select")?;
    write_bit(writer, cond)?;
    writer.token(b",")?;
    writer.typed(ty, a)?;
    writer.token(b",")?;
    writer.typed(ty, b)
}

/// Writes a `freeze`.
#[tactic(auto, using(ms_write_values::proofs::Puts::put_append))]
fn write_freeze(writer: &mut Writer, ty: &Ty, a: &Operand) -> Result<(), NoMemory>
    ensures { IfOk result (λ _. writer.new ≡ put writer.old (word (codes "freeze") ∷ typed_tokens ty.now a.now)) }
{
    writer.token(b"freeze")?;
    writer.typed(ty, a)
}

/// Writes the edge of a phi of a type: a value, and the block that control comes from.
#[tactic(auto, using(ms_write_values::proofs::Puts::put_append))]
fn write_edge(writer: &mut Writer, ty: &Ty, edge: &(Operand, Name)) -> Result<(), NoMemory>
    ensures { IfOk result (λ _. writer.new ≡ put writer.old (edge_tokens ty.now edge.now)) }
{
    writer.token(b"[")?;
    writer.value(ty, &edge.0)?;
    writer.token(b",")?;
    writer.local(&edge.1)?;
    writer.token(b"]")
}

/// Writes edges after a comma each.
#[tactic(auto, using(ms_write_values::proofs::Puts::put_append))]
fn write_more_edges(writer: &mut Writer, ty: &Ty, edges: &[(Operand, Name)]) -> Result<(), NoMemory>
    ensures { IfOk result (λ _. writer.new ≡ put writer.old (after_commas (map (edge_tokens ty.now) edges.now))) }
{
    for edge in edges {
        writer.token(b",")?;
        write_edge(writer, ty, edge)?;
    }
    Ok(())
}

/// Writes edges with commas between.
#[tactic(auto, using(ms_write_values::proofs::Puts::put_append))]
fn write_edges(writer: &mut Writer, ty: &Ty, edges: &[(Operand, Name)]) -> Result<(), NoMemory>
    ensures { IfOk result (λ _. writer.new ≡ put writer.old (with_commas (map (edge_tokens ty.now) edges.now))) }
{
    match edges {
        [] => {}
        [first, rest @ ..] => {
            write_edge(writer, ty, first)?;
            write_more_edges(writer, ty, rest)?;
        }
    }
    Ok(())
}

/// Writes a phi.
#[tactic(auto, using(ms_write_values::proofs::Puts::put_append))]
fn write_phi(writer: &mut Writer, ty: &Ty, edges: &[(Operand, Name)]) -> Result<(), NoMemory>
    ensures { IfOk result (λ _. writer.new ≡ put writer.old (word (codes "phi") ∷ (type_tokens ty.now ++ with_commas (map (edge_tokens ty.now) edges.now)))) }
{
    writer.token(b"phi")?;
    writer.ty(ty)?;
    write_edges(writer, ty, edges)
}

/// Writes the count of an `alloca` and its type after a comma. The count `i32 1` isn't written.
#[tactic(auto, using(ms_write_values::proofs::Puts::put_append))]
fn write_item_count(writer: &mut Writer, ty: &Ty, count: &Operand) -> Result<(), NoMemory>
    ensures { IfOk result (λ _. writer.new ≡ put writer.old (after_commas (count_tokens ty.now count.now))) }
{
    if !(is_i32(ty) && is_one(count)) {
        writer.token(b",")?;
        writer.typed(ty, count)?;
    }
    Ok(())
}

/// Writes an `alloca`.
#[tactic(auto, using(ms_write_values::proofs::Puts::put_append))]
fn write_alloca(
    writer: &mut Writer,
    ty: &Ty,
    count_ty: &Ty,
    count: &Operand,
) -> Result<(), NoMemory>
    ensures { IfOk result (λ _. writer.new ≡ put writer.old (word (codes "alloca") ∷ with_commas (type_tokens ty.now ∷ count_tokens count_ty.now count.now))) }
{
    writer.token(b"alloca")?;
    writer.ty(ty)?;
    write_item_count(writer, count_ty, count)
}

/// Writes a `load`.
#[tactic(auto, using(ms_write_values::proofs::Puts::put_append))]
fn write_load(writer: &mut Writer, ty: &Ty, address: &Operand) -> Result<(), NoMemory>
    ensures { IfOk result (λ _. writer.new ≡ put writer.old (word (codes "load") ∷ with_commas (type_tokens ty.now ∷ address_tokens address.now ∷ []))) }
{
    writer.token(b"load")?;
    writer.ty(ty)?;
    writer.token(b",")?;
    write_address(writer, address)
}

/// Writes a `store`.
#[tactic(auto, using(ms_write_values::proofs::Puts::put_append))]
fn write_store(
    writer: &mut Writer,
    ty: &Ty,
    value: &Operand,
    address: &Operand,
) -> Result<(), NoMemory>
    ensures { IfOk result (λ _. writer.new ≡ put writer.old (word (codes "store") ∷ with_commas (typed_tokens ty.now value.now ∷ address_tokens address.now ∷ []))) }
{
    writer.token(b"store")?;
    writer.typed(ty, value)?;
    writer.token(b",")?;
    write_address(writer, address)
}

/// Writes a `getelementptr`.
#[tactic(auto, using(ms_write_values::proofs::Puts::put_append))]
fn write_gep(
    writer: &mut Writer,
    ty: &Ty,
    base: &Operand,
    indices: &[(Ty, Operand)],
) -> Result<(), NoMemory>
    ensures { IfOk result (λ _. writer.new ≡ put writer.old (word (codes "getelementptr") ∷ with_commas (type_tokens ty.now ∷ address_tokens base.now ∷ map pair_tokens indices.now))) }
{
    writer.token(b"getelementptr")?;
    writer.ty(ty)?;
    writer.token(b",")?;
    write_address(writer, base)?;
    writer.more_pairs(indices)?;
    Ok(())
}

/// Writes the type of a callee, which only `printf` has, where calls of it are written with dots.
fn write_callee_type(
    writer: &mut Writer,
    dotted: bool,
    ret: &Option<Ty>,
    callee: &Name,
) -> Result<(), NoMemory>
    ensures { IfOk result (λ _. writer.new ≡ put writer.old (callee_type_tokens dotted ret.now callee.now)) }
{
    if dotted && gives_i32(ret) && names_printf(callee) {
        writer.token(b"(")?;
        writer.token(b"ptr")?;
        writer.token(b",")?;
        writer.token(b"...")?;
        writer.token(b")")?;
    }
    Ok(())
}

/// Writes arguments between parentheses.
#[tactic(auto, using(ms_write_values::proofs::Puts::put_append))]
fn write_arguments(writer: &mut Writer, args: &[(Ty, Operand)]) -> Result<(), NoMemory>
    ensures { IfOk result (λ _. writer.new ≡ put writer.old (enclosed (codes "(") (codes ")") (map pair_tokens args.now))) }
{
    writer.token(b"(")?;
    writer.pairs(args)?;
    writer.token(b")")
}

/// Writes a call; `dotted` says whether one of `printf` has `(ptr, ...)`.
#[tactic(auto, using(ms_write_values::proofs::Puts::put_append))]
fn write_call(
    writer: &mut Writer,
    dotted: bool,
    ret: &Option<Ty>,
    callee: &Name,
    args: &[(Ty, Operand)],
) -> Result<(), NoMemory>
    ensures { IfOk result (λ _. writer.new ≡ put writer.old (word (codes "call") ∷ (result_tokens ret.now ++ (callee_type_tokens dotted ret.now callee.now ++ global_token callee.now ∷ enclosed (codes "(") (codes ")") (map pair_tokens args.now))))) }
{
    writer.token(b"call")?;
    writer.result_type(ret)?;
    write_callee_type(writer, dotted, ret, callee)?;
    writer.global(callee)?;
    write_arguments(writer, args)
}

/// Writes a `br` without a condition.
#[tactic(auto, using(ms_write_values::proofs::Puts::put_append))]
fn write_branch(writer: &mut Writer, to: &Name) -> Result<(), NoMemory>
    ensures { IfOk result (λ _. writer.new ≡ put writer.old (word (codes "br") ∷ target_tokens to.now)) }
{
    writer.token(b"br")?;
    write_target(writer, to)
}

/// Writes a `br` on a condition.
#[tactic(auto, using(ms_write_values::proofs::Puts::put_append))]
fn write_branch_on(
    writer: &mut Writer,
    cond: &Operand,
    yes: &Name,
    no: &Name,
) -> Result<(), NoMemory>
    ensures { IfOk result (λ _. writer.new ≡ put writer.old (word (codes "br") ∷ with_commas (bit_tokens cond.now ∷ target_tokens yes.now ∷ target_tokens no.now ∷ []))) }
{
    writer.token(b"br")?;
    write_bit(writer, cond)?;
    writer.token(b",")?;
    write_target(writer, yes)?;
    writer.token(b",")?;
    write_target(writer, no)
}

/// Writes a case of a switch: a number, of a single bit too, and a block.
#[tactic(auto, using(ms_write_values::proofs::Puts::put_append))]
fn write_case(writer: &mut Writer, ty: &Ty, case: &(u64, Name)) -> Result<(), NoMemory>
    ensures { IfOk result (λ _. writer.new ≡ put writer.old (case_tokens ty.now case.now)) }
{
    writer.ty(ty)?;
    writer.number(width_of(ty), case.0)?;
    writer.token(b",")?;
    write_target(writer, &case.1)
}

/// Writes cases after one another.
#[tactic(auto, using(ms_write_values::proofs::Puts::put_append))]
fn write_cases(writer: &mut Writer, ty: &Ty, cases: &[(u64, Name)]) -> Result<(), NoMemory>
    ensures { IfOk result (λ _. writer.new ≡ put writer.old (flat_map (case_tokens ty.now) cases.now)) }
{
    for case in cases {
        write_case(writer, ty, case)?;
    }
    Ok(())
}

/// Writes cases between brackets.
#[tactic(auto, using(ms_write_values::proofs::Puts::put_append))]
fn write_case_list(writer: &mut Writer, ty: &Ty, cases: &[(u64, Name)]) -> Result<(), NoMemory>
    ensures { IfOk result (λ _. writer.new ≡ put writer.old (sign (codes "[") ∷ (flat_map (case_tokens ty.now) cases.now ++ sign (codes "]") ∷ []))) }
{
    writer.token(b"[")?;
    write_cases(writer, ty, cases)?;
    writer.token(b"]")
}

/// Writes a `switch`.
#[tactic(auto, using(ms_write_values::proofs::Puts::put_append))]
fn write_switch(
    writer: &mut Writer,
    ty: &Ty,
    value: &Operand,
    other: &Name,
    cases: &[(u64, Name)],
) -> Result<(), NoMemory>
    ensures { IfOk result (λ _. writer.new ≡ put writer.old (word (codes "switch") ∷ (with_commas (typed_tokens ty.now value.now ∷ target_tokens other.now ∷ []) ++ sign (codes "[") ∷ (flat_map (case_tokens ty.now) cases.now ++ sign (codes "]") ∷ [])))) }
{
    writer.token(b"switch")?;
    writer.typed(ty, value)?;
    writer.token(b",")?;
    write_target(writer, other)?;
    write_case_list(writer, ty, cases)
}

/// Writes a `ret`, of a value or `void`.
fn write_ret(writer: &mut Writer, value: &Option<(Ty, Operand)>) -> Result<(), NoMemory>
    ensures { IfOk result (λ _. writer.new ≡ put writer.old (word (codes "ret") ∷ returned_tokens value.now)) }
{
    writer.token(b"ret")?;
    match value {
        None => writer.token(b"void"),
        Some(value) => writer.typed(&value.0, &value.1),
    }
}

/// Writes a binary operation, an `icmp`, a cast, a `select` or a `freeze`.
#[tactic(auto, unfolding(ms_text_grammar::specs::LayoutInsts::op_tokens))]
fn write_computation(writer: &mut Writer, op: &Op) -> Result<(), NoMemory>
    requires { IsComputation op.now }
    ensures { (dotted : Bool) → IfOk result (λ _. writer.new ≡ put writer.old (op_tokens dotted op.now)) }
{
    match op {
        Op::Binary {
            op,
            flags,
            ty,
            a,
            b,
        } => write_binary(writer, *op, *flags, ty, a, b),
        Op::Icmp {
            pred,
            flags,
            ty,
            a,
            b,
        } => write_icmp(writer, *pred, *flags, ty, a, b),
        Op::Cast {
            op,
            flags,
            from,
            a,
            to,
        } => write_cast(writer, *op, *flags, from, a, to),
        Op::Select { cond, ty, a, b } => write_select(writer, cond, ty, a, b),
        Op::Freeze { ty, a } => write_freeze(writer, ty, a),
        _ => unreachable!(),
    }
}

/// Writes an instruction that makes, reads or writes memory, or makes an address.
#[tactic(auto, unfolding(ms_text_grammar::specs::LayoutInsts::op_tokens))]
fn write_access(writer: &mut Writer, op: &Op) -> Result<(), NoMemory>
    requires { IsAccess op.now }
    ensures { (dotted : Bool) → IfOk result (λ _. writer.new ≡ put writer.old (op_tokens dotted op.now)) }
{
    match op {
        Op::Alloca {
            ty,
            count_ty,
            count,
        } => write_alloca(writer, ty, count_ty, count),
        Op::Load { ty, addr } => write_load(writer, ty, addr),
        Op::Store { ty, value, addr } => write_store(writer, ty, value, addr),
        Op::Gep { ty, base, indices } => { write_gep(writer, ty, base, indices.as_slice()) }
        _ => unreachable!(),
    }
}

/// Writes an instruction that ends a block.
#[tactic(auto, unfolding(ms_text_grammar::specs::LayoutInsts::op_tokens))]
fn write_terminator(writer: &mut Writer, op: &Op) -> Result<(), NoMemory>
    requires { IsTerminator op.now }
    ensures { (dotted : Bool) → IfOk result (λ _. writer.new ≡ put writer.old (op_tokens dotted op.now)) }
{
    match op {
        Op::Br { to } => write_branch(writer, to),
        Op::CondBr { cond, yes, no } => write_branch_on(writer, cond, yes, no),
        Op::Switch {
            ty,
            value,
            other,
            cases,
        } => write_switch(writer, ty, value, other, cases.as_slice()),
        Op::Ret { value } => write_ret(writer, value),
        Op::Unreachable => writer.token(b"unreachable"),
        _ => unreachable!(),
    }
}

/// Writes what an instruction does; `dotted` says whether calls of `printf` have three dots.
#[tactic(auto, unfolding(ms_text_grammar::specs::LayoutInsts::op_tokens))]
pub fn write_op(writer: &mut Writer, dotted: bool, op: &Op) -> Result<(), NoMemory>
    ensures { IfOk result (λ _. writer.new ≡ put writer.old (op_tokens dotted op.now)) }
{
    match op {
        Op::Binary { .. }
        | Op::Icmp { .. }
        | Op::Cast { .. }
        | Op::Select { .. }
        | Op::Freeze { .. } => write_computation(writer, op),
        Op::Alloca { .. } | Op::Load { .. } | Op::Store { .. } | Op::Gep { .. } => {
            write_access(writer, op)
        }
        Op::Phi { ty, edges } => write_phi(writer, ty, edges.as_slice()),
        Op::Call { ret, callee, args } => write_call(writer, dotted, ret, callee, args.as_slice()),
        Op::Br { .. } | Op::CondBr { .. } | Op::Switch { .. } | Op::Ret { .. } | Op::Unreachable =>
            write_terminator(writer, op),
    }
}
