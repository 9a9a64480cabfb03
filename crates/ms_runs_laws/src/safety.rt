//! What instructions leave of memory.
ghost use Rattle.std.specs.Prelude.{ℕ, List};
ghost use Rattle.ms_ir.specs.declared.syntax.Op.{Op};
ghost use Rattle.ms_runs.specs.{World.{World, Setting, Here}, Act.{act}};
ghost use Rattle.ms_runs_laws.specs.Inside.{InsideAfter, AgreesLive, SameAnswer};

/// No instruction changes a byte that isn't live: what it changes was live before it, or belongs to an allocation that it
/// made. This holds of every world and of all operands, and so of every program.
pub fn writes_stay_inside()
    ensures { (setting : Setting) (here : Here) (op : Op) (words : List ℕ) (world : World) → InsideAfter world (act setting here op words world) }
{}

/// No instruction reads a byte that isn't live: with other bytes where none is live it comes to the same, and leaves the same
/// world but for such bytes; those of allocations that it made are the same too.
pub fn reads_stay_inside()
    ensures { (setting : Setting) (here : Here) (op : Op) (words : List ℕ) (world : World) (bytes : ℕ → ℕ) → AgreesLive world bytes
        → SameAnswer world (act setting here op words world) (act setting here op words (record world { bytes = bytes })) }
{}
