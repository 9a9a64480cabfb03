//! The first checked use of an instruction that is poisoned: its uses are asked in their order. Each function returns what that use
//! reads, or none.
ghost use Rattle.std.specs.Prelude.{◌≡◌, ◌<◌, false, length, get_or, drop, map, All, Some, None};
ghost use Rattle.ms_runs.specs.{World.{World as Meant}, Uses.{value_uses, string_uses}};
ghost use Rattle.ms_runs_uses.specs.Uses.{use_of};
ghost use Rattle.ms_machine_code.specs.Fits.{IsSource};
ghost use Rattle.ms_host.specs.{State.{Beside}, Shows.{Shows}};
ghost use Rattle.ms_trail_masks.specs.Views.{IsView};
ghost use Rattle.ms_trail_uses.specs.Used.{seen, or_used, first_read, string_use_read, op_read, code_read, IsUsing};

use crate::used::{Used, used_by};
use ms_host::World;
use ms_ir::{External, Op, Operand, Ty};
use ms_machine_code::{Code, WordSource};
use ms_runs_uses::uses::{CheckedUse, checked_uses, printed_args, printed_string, printed_word};
use ms_trail_masks::View;

/// The operand with the place `k`.
pub fn typed_at(typed: &[(Ty, Operand)], k: usize) -> &(Ty, Operand)
    requires { k < length typed.now }
    ensures { result.now ≡ get_or typed.now k result.now }
{
    &typed[k]
}

/// The first of two poisoned uses, if it is there, else the second.
fn or_else(first: Option<Used>, second: Option<Used>) -> Option<Used>
    ensures { result ≡ or_used first second }
{
    match first {
        Some(used) => Some(used),
        None => second,
    }
}

/// The first use of a table of uses that is poisoned.
fn first_listed(
    view: &View<'_>,
    world: &World,
    args: &[WordSource],
    uses: &[CheckedUse],
) -> Option<Used>
    requires view { IsView view.now }
    requires args { All (IsSource (length view.now.values.now) 64) args.now }
    ensures { (beside : Beside) (meant : Meant) → Shows world.now beside meant → result ≡ first_read meant (seen view.now.fill.now view.now.values.now view.now.masks.now args.now) (map use_of uses.now) }
{
    for checked in uses {
        if let Some(used) = used_by(view, world, args, *checked) {
            return Some(used);
        }
    }
    None
}

/// The first argument of `printf` after its format whose word is poisoned.
fn first_word(
    view: &View<'_>,
    world: &World,
    args: &[WordSource],
    typed: &[(Ty, Operand)],
) -> Option<Used>
    requires view { IsView view.now }
    requires args { All (IsSource (length view.now.values.now) 64) args.now }
    ensures { (beside : Beside) (meant : Meant) → Shows world.now beside meant → result ≡ first_read meant (seen view.now.fill.now view.now.values.now view.now.masks.now args.now) (value_uses 1 (drop 1 typed.now)) }
{
    for k in 1..typed.len() {
        if let Some(used) = used_by(view, world, args, printed_word(k)) {
            return Some(used);
        }
    }
    None
}

/// The use of the string to which argument `k` of `printf`, after its format, points, where it is poisoned.
fn string_at(
    view: &View<'_>,
    world: &World,
    args: &[WordSource],
    typed: &(Ty, Operand),
    k: usize,
) -> Option<Used>
    requires view { IsView view.now }
    requires args { All (IsSource (length view.now.values.now) 64) args.now }
    ensures { (beside : Beside) (meant : Meant) → Shows world.now beside meant → result ≡ string_use_read meant (seen view.now.fill.now view.now.values.now view.now.masks.now args.now) typed.now.0 k }
{
    match printed_string(&typed.0, k) {
        Some(checked) => used_by(view, world, args, checked),
        None => None,
    }
}

/// The first poisoned byte of a string that `printf` prints.
fn first_string(
    view: &View<'_>,
    world: &World,
    args: &[WordSource],
    typed: &[(Ty, Operand)],
) -> Option<Used>
    requires view { IsView view.now }
    requires args { All (IsSource (length view.now.values.now) 64) args.now }
    ensures { (beside : Beside) (meant : Meant) → Shows world.now beside meant → result ≡ first_read meant (seen view.now.fill.now view.now.values.now view.now.masks.now args.now) (string_uses 1 (drop 1 typed.now)) }
{
    for k in 1..typed.len() {
        let pair = typed_at(typed, k);
        if let Some(used) = string_at(view, world, args, pair, k) {
            return Some(used);
        }
    }
    None
}

/// The first use of an operation that is poisoned and calls no external, of operands that are read from sources; `main` says
/// whether it stands in the function `main`.
fn first_plain(
    view: &View<'_>,
    world: &World,
    args: &[WordSource],
    main: bool,
    op: &Op,
) -> Option<Used>
    requires view { IsView view.now }
    requires args { All (IsSource (length view.now.values.now) 64) args.now }
    ensures { (beside : Beside) (meant : Meant) → Shows world.now beside meant → result ≡ op_read meant (seen view.now.fill.now view.now.values.now view.now.masks.now args.now) main None op.now }
{
    first_listed(view, world, args, checked_uses(main, None, op))
}

/// The first use of a call of an external that is poisoned.
fn first_called(
    view: &View<'_>,
    world: &World,
    args: &[WordSource],
    external: External,
    op: &Op,
) -> Option<Used>
    requires view { IsView view.now }
    requires args { All (IsSource (length view.now.values.now) 64) args.now }
    ensures { (beside : Beside) (meant : Meant) → Shows world.now beside meant → result ≡ op_read meant (seen view.now.fill.now view.now.values.now view.now.masks.now args.now) false (Some external) op.now }
{
    let listed = first_listed(view, world, args, checked_uses(false, Some(external), op));
    let printed = printed_args(Some(external), op);
    let word = first_word(view, world, args, printed);
    let string = first_string(view, world, args, printed);
    or_else(listed, or_else(word, string))
}

/// The first use of an instruction that is poisoned: `op` is the operation that its code stands for.
pub fn first_used(view: &View<'_>, world: &World, code: &Code, op: &Op) -> Option<Used>
    requires view { IsView view.now }
    requires using { IsUsing (length view.now.values.now) code.now }
    ensures { (beside : Beside) (meant : Meant) → Shows world.now beside meant → result ≡ code_read view.now.fill.now view.now.values.now view.now.masks.now meant op.now code.now }
{
    match code {
        Code::Binary { a, b, .. } => first_plain(view, world, &[*a, *b], false, op),
        Code::Alloca { count, .. } => first_plain(view, world, &[*count], false, op),
        Code::Load { addr, .. } => first_plain(view, world, &[*addr], false, op),
        Code::Store { value, addr, .. } => first_plain(view, world, &[*value, *addr], false, op),
        Code::Branch { cond, .. } => first_plain(view, world, &[*cond], false, op),
        Code::Switch { value, .. } => first_plain(view, world, &[*value], false, op),
        Code::Exit { value } => first_plain(view, world, &[*value], true, op),
        Code::External { external, args, .. } => {
            first_called(view, world, args.as_slice(), *external, op)
        }
        _ => None,
    }
}
