//! The list of a module's roots, and the numbers by which runs speak of them.
ghost use Rattle.std.specs.Prelude.{◌≡◌, ◌<◌, ◌+◌, ℕ, Some, length, slice_get};
ghost use Rattle.ms_ir.specs.{declared.syntax.Inst.{Inst}, declared.syntax.Module.{Module}};
ghost use Rattle.ms_ir.specs.Instructions.{func_index, insts_at, site_at, roots_in, root_at, count_roots, strip};
ghost use Rattle.ms_ir.specs.Roots.{inst_roots, roots_of, root_numbered};

/// A module has as many roots as are counted, and inserted code adds none.
pub fn listed_roots()
    ensures counted { (m : Module) → length (roots_of m) ≡ count_roots m }
    ensures stripped { (m : Module) → roots_of (strip m) ≡ roots_of m }
{}

/// Root k of an instruction, counted from 0, has the number `root_at` + k + 1 in its module, and it is listed with the
/// instruction's site.
pub fn placed_roots()
    ensures { (m : Module) (f b p k : ℕ) (inst : Inst) → slice_get (insts_at m f b) p ≡ Some inst
        → k < roots_in (func_index m.funcs) inst
        → root_numbered m (root_at (func_index m.funcs) m f b p + k + 1)
        ≡ slice_get (inst_roots (func_index m.funcs) (site_at m f b p) inst) k }
{}
