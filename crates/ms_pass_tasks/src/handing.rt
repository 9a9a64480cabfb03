//! Laws about calls: what the caller stores in the slots the callee loads, and what the callee stores the caller loads.
//! That the slots are filled is said by `law_instruction_is_due`. `cells`: what the slots hold; `env`: the names of a function's
//! values, with their numbers and which of them are clean; `ps`: the arguments with masks and origins.
ghost use Rattle.std.specs.Prelude.{◌≡◌, ◌≤◌, ℕ, true, length, List, Option, Some};
ghost use Rattle.ms_ir.specs.{declared.syntax.Name.{Name}, declared.syntax.Ty.{Ty}, declared.syntax.Operand.{Operand}};
ghost use Rattle.ms_runs.specs.{World.{Setting, Here}, Control.{bind}, Poisoned.{Poisoned, clean}};
ghost use Rattle.ms_pass_tasks.specs.{Environments.{Env}, Known.{OneName, KnownResult, KnownParams, ArgsFit}};
ghost use Rattle.ms_pass_tasks.specs.Match.{Matches, SlotAddresses, ArgsHeld};
ghost use Rattle.ms_pass_tasks.specs.SlotLaw.{SameLength, Entered, ReturnFits, ResultTaken};

/// A function that is entered with up to 100 arguments, whose masks and origins stand in the slots, has them under the
/// names of its parameters before its first instruction.
pub fn law_arguments_arrive()
    ensures { (s : Setting) → SlotAddresses s → (h : Here) (cells : ℕ → ℕ) (env : Env) (size : ℕ) → OneName env
        → (params : List (Ty × Name)) (args : List (Ty × Operand)) (ps : List Poisoned) → ArgsFit params args → length args ≤ 100
        → KnownParams env size 0 params → ArgsHeld cells 0 args ps → SameLength args ps
        → ((x : Name) → env.clean x ≡ true → (bind clean params ps x).mask ≡ 0)
        → Entered s h env params ps cells }
{}

/// After a call the mask and the origin of what was returned, which the slots hold (`ReturnFits`), stand under the names of the
/// call's result.
pub fn law_result_arrives()
    ensures { (s : Setting) → SlotAddresses s → (h : Here) (env : Env) (size : ℕ) → OneName env
        → (x : Option Name) (ret : Option Ty) → KnownResult env size x → (values : Name → Poisoned) (p : Poisoned) (names : Name → ℕ) (cells : ℕ → ℕ)
        → Matches env values names → ReturnFits x ret cells p → ((y : Name) → x ≡ Some y → env.clean y ≡ true → p.mask ≡ 0)
        → ResultTaken s h env x ret values p names cells }
{}
