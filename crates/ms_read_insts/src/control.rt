//! Reads phis and terminators (LLVM Language Reference, "'phi' Instruction", "Terminator Instructions").

ghost use Rattle.std.specs.Prelude.{◌≡◌, ◌∷◌, ◌++◌, [], IfOk, Some, false};
ghost use Rattle.ms_ir.specs.declared.syntax.Op.TheVariants as operation;
ghost use Rattle.ms_text_grammar.specs.Insts as spec;
ghost use Rattle.ms_read_cursor.specs.Reading.{Gives, run};
ghost use Rattle.ms_read_values.specs.Narrow.{IsWidth};
ghost use Rattle.ms_read_insts.specs.Rests as rest;

use crate::computations::{bit_type, is_int_type};
use ms_bits::{Boxed, List, NoMemory};
use ms_ir::{Form, Name, Op, Operand, Ty};
use ms_read_cursor::{Tokens, Turn, local, repeat, with_last};
use ms_read_values::{ScalarType, int_type, number, result_type, suffixes_from, value, value_type};
use ms_text_grammar::{Cause, PhiEdges, Symbol};
use std::alloc::Global;

/// The cases of a `switch`: the words and the labels.
type Cases = List<(u64, Name)>;

/// Reads the block that control comes from, and `]`, after the value of an edge.
fn edge_end(
    tokens: &mut Tokens<'_>,
    form: Form,
    operand: Boxed<Operand>,
) -> Result<(Boxed<Operand>, Name), Cause>
    ensures { Gives (run (rest.edge_end form operand) tokens.old) result tokens.new }
{
    let from = local(tokens, form)?;
    tokens.word(Symbol::CloseBracket)?;
    Ok((operand, from))
}

/// Reads an edge of a phi after its `[`.
#[tactic(auto, unfolding(ms_text_grammar::specs::Insts::edge))]
fn edge(
    tokens: &mut Tokens<'_>,
    form: Form,
    ty: ScalarType,
) -> Result<(Boxed<Operand>, Name), Cause>
    ensures { Gives (run (spec.edge form ty) tokens.old) result tokens.new }
{
    let operand = value(tokens, form, ty)?;
    tokens.word(Symbol::Comma)?;
    edge_end(tokens, form, operand)
}

/// The edges with one more after them.
fn with_edge(
    found: List<(Operand, Name)>,
    edge: (Boxed<Operand>, Name),
) -> Result<PhiEdges, NoMemory>
    ensures { IfOk result (λ edges. edges ≡ record { found = found ++ edge ∷ []; ended = false }) }
{
    let (operand, from) = edge;
    let found = with_last(found, (operand.into_inner(), from))?;
    Ok(PhiEdges {
        found,
        ended: false,
    })
}

/// Reads an edge after its comma, or finds that what is attached begins.
#[tactic(auto, unfolding(ms_text_grammar::specs::Insts::edge_turn))]
fn edge_turn(
    tokens: &mut Tokens<'_>,
    form: Form,
    ty: ScalarType,
    found: List<(Operand, Name)>,
) -> Result<PhiEdges, Cause>
    ensures { Gives (run (spec.edge_turn form ty found) tokens.old) result tokens.new }
{
    match tokens.peek() {
        Symbol::OpenBracket => {
            tokens.advance();
            let next = edge(tokens, form, ty)?;
            Ok(with_edge(found, next)?)
        }
        _ => Ok(PhiEdges { found, ended: true }),
    }
}

/// Edge after edge of a phi of this type.
#[derive(Clone, Copy)]
struct EdgeTurn {
    form: Form,
    ty: ScalarType,
}

impl Turn for EdgeTurn {
    type State = PhiEdges;

    ghost use Rattle.ms_text_grammar.specs.Insts.{edge_begins, edge_turn};

    ghost begins = { λ rule. edge_begins };

    ghost body = { λ rule edges comma. edge_turn rule.form rule.ty edges.found };

    fn goes_on(&self, state: &PhiEdges, tokens: &Tokens<'_>) -> Result<bool, Cause> {
        Ok(!state.ended && tokens.sees(Symbol::Comma))
    }

    fn turn(&self, state: PhiEdges, tokens: &mut Tokens<'_>) -> Result<PhiEdges, Cause> {
        tokens.advance();
        let PhiEdges { found, .. } = state;
        edge_turn(tokens, self.form, self.ty, found)
    }
}

/// The edges of a phi after its first one.
fn first_edges(alloc: Global, first: (Boxed<Operand>, Name)) -> Result<PhiEdges, NoMemory>
    ensures { IfOk result (λ edges. edges ≡ record { found = first ∷ []; ended = false }) }
{
    with_edge(List::from_vec(Vec::new(alloc)), first)
}

/// A phi as an operation.
fn phi_of(
    alloc: Global,
    ty: ScalarType,
    edges: List<(Operand, Name)>,
) -> Result<Boxed<Op>, NoMemory>
    ensures { IfOk result (λ o. o ≡ operation.Phi ty edges) }
{
    Boxed::new(alloc, Op::Phi { ty: ty.ty(), edges })
}

/// Reads the edges after the first one, and what is attached.
fn phi_rest(
    tokens: &mut Tokens<'_>,
    form: Form,
    ty: ScalarType,
    first: PhiEdges,
) -> Result<(Boxed<Op>, bool), Cause>
    ensures { Gives (run (rest.phi_rest form ty first) tokens.old) result tokens.new }
{
    let PhiEdges { found, ended } = repeat(tokens, &EdgeTurn { form, ty }, first)?;
    let marked = suffixes_from(tokens, form, ended)?;
    Ok((phi_of(tokens.alloc(), ty, found)?, marked))
}

/// Reads a phi after its word: `type [value, local]`, more edges after commas, and what is attached. The second value is
/// whether that has the mark.
///
/// # Errors
///
/// Those of its parts: `Syntax` or `Outside` at a token that can't stand.
#[tactic(auto, unfolding(ms_text_grammar::specs::Insts::phi_rule))]
pub fn phi_rule(tokens: &mut Tokens<'_>, form: Form) -> Result<(Boxed<Op>, bool), Cause>
    ensures { Gives (run (spec.phi_rule form) tokens.old) result tokens.new }
{
    let ty = value_type(tokens)?;
    tokens.word(Symbol::OpenBracket)?;
    let first = first_edges(tokens.alloc(), edge(tokens, form, ty)?)?;
    phi_rest(tokens, form, ty, first)
}

/// Takes `label` and the name of a block.
#[tactic(auto, unfolding(ms_text_grammar::specs::Insts::target))]
fn target(tokens: &mut Tokens<'_>, form: Form) -> Result<Name, Cause>
    ensures { Gives (run (spec.target form) tokens.old) result tokens.new }
{
    tokens.word(Symbol::LabelWord)?;
    local(tokens, form)
}

/// A `br` on a condition as an operation.
fn branch_of(
    alloc: Global,
    cond: Boxed<Operand>,
    yes: Name,
    no: Name,
) -> Result<Boxed<Op>, NoMemory>
    ensures { IfOk result (λ o. o ≡ operation.CondBr cond yes no) }
{
    Boxed::new(
        alloc,
        Op::CondBr {
            cond: cond.into_inner(),
            yes,
            no,
        },
    )
}

/// Reads `, label %no` after the first target.
fn branch_end(
    tokens: &mut Tokens<'_>,
    form: Form,
    cond: Boxed<Operand>,
    yes: Name,
) -> Result<Boxed<Op>, Cause>
    ensures { Gives (run (rest.branch_end form cond yes) tokens.old) result tokens.new }
{
    tokens.word(Symbol::Comma)?;
    let no = target(tokens, form)?;
    Ok(branch_of(tokens.alloc(), cond, yes, no)?)
}

/// Reads `, label %yes, label %no` after the condition.
fn branch_rest(
    tokens: &mut Tokens<'_>,
    form: Form,
    cond: Boxed<Operand>,
) -> Result<Boxed<Op>, Cause>
    ensures { Gives (run (rest.branch_rest form cond) tokens.old) result tokens.new }
{
    tokens.word(Symbol::Comma)?;
    let yes = target(tokens, form)?;
    branch_end(tokens, form, cond, yes)
}

/// Reads `i1 condition, label %yes, label %no`.
#[tactic(auto, unfolding(ms_text_grammar::specs::Insts::branch_on))]
fn branch_on(tokens: &mut Tokens<'_>, form: Form) -> Result<Boxed<Op>, Cause>
    ensures { Gives (run (spec.branch_on form) tokens.old) result tokens.new }
{
    bit_type(tokens)?;
    let cond = value(tokens, form, ScalarType::int(1))?;
    branch_rest(tokens, form, cond)
}

/// Reads a `br` after its word: `label %to`, or `i1 condition, label %yes, label %no`.
///
/// # Errors
///
/// Those of its parts.
#[tactic(auto, unfolding(ms_text_grammar::specs::Insts::branch_rule))]
pub fn branch_rule(tokens: &mut Tokens<'_>, form: Form) -> Result<Boxed<Op>, Cause>
    ensures { Gives (run (spec.branch_rule form) tokens.old) result tokens.new }
{
    if !tokens.sees(Symbol::LabelWord) {
        return branch_on(tokens, form);
    }
    let to = target(tokens, form)?;
    Ok(Boxed::new(tokens.alloc(), Op::Br { to })?)
}

/// Reads `, label %to` after the number `n` of a case, and adds the case to those in front.
fn case_end(tokens: &mut Tokens<'_>, form: Form, n: u64, found: Cases) -> Result<Cases, Cause>
    ensures { Gives (run (rest.case_end form n found) tokens.old) result tokens.new }
{
    tokens.word(Symbol::Comma)?;
    let to = target(tokens, form)?;
    Ok(with_last(found, (n, to))?)
}

/// Reads a case of a `switch` after its type.
#[tactic(auto, unfolding(ms_text_grammar::specs::Insts::case_rest))]
fn case_rest(tokens: &mut Tokens<'_>, form: Form, width: u8, found: Cases) -> Result<Cases, Cause>
    requires { IsWidth width }
    ensures { Gives (run (spec.case_rest form width found) tokens.old) result tokens.new }
{
    let n = number(tokens, width)?;
    case_end(tokens, form, n, found)
}

/// Case after case of a `switch` on a value of this width.
#[derive(Drop)]
struct CaseTurn {
    form: Form,
    width: u8,
    ghost narrow: { IsWidth width },
}

impl Turn for CaseTurn {
    type State = Cases;

    ghost use Rattle.ms_text_grammar.specs.Insts.{case_begins, case_rest};

    ghost begins = { λ rule. case_begins rule.width };

    ghost body = { λ rule found t. case_rest rule.form rule.width found };

    fn goes_on(&self, _state: &Cases, tokens: &Tokens<'_>) -> Result<bool, Cause> {
        Ok(is_int_type(self.width, &tokens.lexeme()))
    }

    fn turn(&self, state: Cases, tokens: &mut Tokens<'_>) -> Result<Cases, Cause> {
        tokens.advance();
        case_rest(tokens, self.form, self.width, state)
    }
}

/// A `switch` on a value of this width as an operation.
fn switch_of(
    alloc: Global,
    width: u8,
    value: Boxed<Operand>,
    other: Name,
    cases: Cases,
) -> Result<Boxed<Op>, NoMemory>
    ensures { IfOk result (λ o. o ≡ operation.Switch (Ty.Int width) value other cases) }
{
    Boxed::new(
        alloc,
        Op::Switch {
            ty: Ty::Int(width),
            value: value.into_inner(),
            other,
            cases,
        },
    )
}

/// Reads `]` after the cases of a `switch`.
fn switch_last(
    tokens: &mut Tokens<'_>,
    width: u8,
    value: Boxed<Operand>,
    other: Name,
    cases: Cases,
) -> Result<Boxed<Op>, Cause>
    ensures { Gives (run (rest.switch_last width value other cases) tokens.old) result tokens.new }
{
    tokens.word(Symbol::CloseBracket)?;
    Ok(switch_of(tokens.alloc(), width, value, other, cases)?)
}

/// Reads the cases of a `switch`, and `]`.
fn switch_end(
    tokens: &mut Tokens<'_>,
    form: Form,
    width: u8,
    value: Boxed<Operand>,
    other: Name,
) -> Result<Boxed<Op>, Cause>
    requires { IsWidth width }
    ensures { Gives (run (rest.switch_end form width value other) tokens.old) result tokens.new }
{
    let none = List::from_vec(Vec::new(tokens.alloc()));
    let cases = repeat(tokens, &CaseTurn { form, width }, none)?;
    switch_last(tokens, width, value, other, cases)
}

/// Reads `label %other [` and the cases of a `switch`.
fn switch_rest(
    tokens: &mut Tokens<'_>,
    form: Form,
    width: u8,
    value: Boxed<Operand>,
) -> Result<Boxed<Op>, Cause>
    requires { IsWidth width }
    ensures { Gives (run (rest.switch_rest form width value) tokens.old) result tokens.new }
{
    let other = target(tokens, form)?;
    tokens.word(Symbol::OpenBracket)?;
    switch_end(tokens, form, width, value, other)
}

/// Reads a `switch` after its word: `iN value, label %other [iN number, label %to ..]`.
///
/// # Errors
///
/// Those of its parts. A case of another type is refused at its type.
#[tactic(auto, unfolding(ms_text_grammar::specs::Insts::switch_rule))]
pub fn switch_rule(tokens: &mut Tokens<'_>, form: Form) -> Result<Boxed<Op>, Cause>
    ensures { Gives (run (spec.switch_rule form) tokens.old) result tokens.new }
{
    let width = int_type(tokens)?;
    let value = value(tokens, form, ScalarType::int(width))?;
    tokens.word(Symbol::Comma)?;
    switch_rest(tokens, form, width, value)
}

/// A `ret` of a value as an operation.
fn ret_of(alloc: Global, ty: ScalarType, value: Boxed<Operand>) -> Result<Boxed<Op>, NoMemory>
    ensures { IfOk result (λ o. o ≡ operation.Ret (Some (ty, value))) }
{
    Boxed::new(
        alloc,
        Op::Ret {
            value: Some((ty.ty(), value.into_inner())),
        },
    )
}

/// Reads a `ret` after its word: `void`, or `type value`.
///
/// # Errors
///
/// Those of its parts.
#[tactic(auto, unfolding(ms_text_grammar::specs::Insts::ret_rule))]
pub fn ret_rule(tokens: &mut Tokens<'_>, form: Form) -> Result<Boxed<Op>, Cause>
    ensures { Gives (run (spec.ret_rule form) tokens.old) result tokens.new }
{
    match result_type(tokens)? {
        None => Ok(Boxed::new(tokens.alloc(), Op::Ret { value: None })?),
        Some(ty) => {
            let operand = value(tokens, form, ty)?;
            Ok(ret_of(tokens.alloc(), ty, operand)?)
        }
    }
}
