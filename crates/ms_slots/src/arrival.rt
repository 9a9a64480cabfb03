//! Laws about the lists: what the caller stores the callee loads, and what the callee stores the caller loads.
ghost use Rattle.std.specs.Prelude.{◌≤◌, ℕ, length, List};
ghost use Rattle.ms_ir.specs.{declared.syntax.Name.{Name}, declared.syntax.Ty.{Ty}, declared.syntax.Operand.{Operand}};
ghost use Rattle.ms_ir.specs.Layout.{width_of};
ghost use Rattle.ms_runs.specs.World.{Setting, Here};
ghost use Rattle.ms_pass_tasks.specs.Match.{SlotAddresses};
ghost use Rattle.ms_slots.specs.Arrival.{AreWords, ArgumentsArrive, ResultArrives};

/// A callee that loads its parameters from `next` on has the masks and origins of up to 100 arguments, as the caller
/// stored them, whatever its names held before.
pub fn law_arguments_arrive()
    ensures { (s : Setting) → SlotAddresses s → (caller callee : Here) (args : List (Ty × Operand × Operand)) → AreWords args → length args ≤ 100
        → (n m next : ℕ) (sent inner : Name → ℕ) (cells : ℕ → ℕ) → ArgumentsArrive s caller callee args n m next sent inner cells }
{}

/// A caller that loads a result from `next` on has its mask and its origin, as the callee stored them.
pub fn law_result_arrives()
    ensures { (s : Setting) → SlotAddresses s → (callee caller : Here) (word : Ty × Operand × Operand) → width_of word.0 ≤ 64
        → (n m next : ℕ) (sent outer : Name → ℕ) (cells : ℕ → ℕ) → ResultArrives s callee caller word n m next sent outer cells }
{}
