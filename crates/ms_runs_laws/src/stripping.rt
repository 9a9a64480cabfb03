//! What is left of a module without its marked instructions, reserved globals and reserved declarations has the same
//! setting, the same start and the same numbers of sites and roots.
ghost use Rattle.std.specs.Prelude.{◌≡◌, ℕ, List, Option, map, filter, option_map};
ghost use Rattle.ms_ir.specs.{declared.syntax.Name.{Name}, declared.syntax.Inst.{Inst}};
ghost use Rattle.ms_ir.specs.declared.syntax.Module.{Module};
ghost use Rattle.ms_ir.specs.Instructions.{func_index, func_at, blocks_at, insts_at, over_insts, before, one_unmarked, site_at, roots_in, root_at, count_roots, is_unmarked, strip_block, strip_func, strip, NoMarks};
ghost use Rattle.ms_runs.specs.{declared.runs.Setup.{Setup}, Globals.{address_of}};
ghost use Rattle.ms_runs.specs.{Control.{Reading, func_name, block_name, params_at}, Poisoned.{Poisoned}};
ghost use Rattle.ms_runs.specs.Plain.{setting_of, start_world, start_frame};
ghost use Rattle.ms_runs_laws.specs.Marks.{Skips, SameRest};

/// Sizes, addresses of globals, places of functions and the number of roots stay the same, and so do the world and the
/// frame that a run starts with.
pub fn stripped_settings()
    ensures types { (m : Module) → (strip m).types ≡ m.types }
    ensures addresses { (m : Module) → address_of (strip m) ≡ address_of m }
    ensures settings { (m : Module) (setup : Setup) → setting_of (strip m) setup ≡ setting_of m setup }
    ensures worlds { (m : Module) (setup : Setup) → start_world (strip m) setup ≡ start_world m setup }
    ensures plain_frames { (reading : Reading ℕ) (m : Module) → start_frame reading (strip m) ≡ start_frame reading m }
    ensures shadow_frames { (reading : Reading Poisoned) (m : Module) → start_frame reading (strip m) ≡ start_frame reading m }
{}

/// The parts of what is left: functions and blocks keep their places, names and parameters, and a block has its unmarked
/// instructions. Nothing more is dropped when this is done once more.
pub fn stripped_parts()
    ensures functions { (m : Module) (f : ℕ) → func_at (strip m) f ≡ option_map strip_func (func_at m f) }
    ensures blocks { (m : Module) (f : ℕ) → blocks_at (strip m) f ≡ map strip_block (blocks_at m f) }
    ensures instructions { (m : Module) (f b : ℕ) → insts_at (strip m) f b ≡ filter is_unmarked (insts_at m f b) }
    ensures function_names { (m : Module) (f : ℕ) → func_name (strip m) f ≡ func_name m f }
    ensures block_names { (m : Module) (f b : ℕ) → block_name (strip m) f b ≡ block_name m f b }
    ensures parameters { (m : Module) (f : ℕ) → params_at (strip m) f ≡ params_at m f }
    ensures unmarked { (m : Module) → NoMarks (strip m) }
    ensures twice { (m : Module) → strip (strip m) ≡ strip m }
{}

/// Sites and roots are counts that are 0 at marked instructions, and such a count over instructions is the count over the
/// unmarked ones.
pub fn stripped_counts()
    ensures sites { Skips one_unmarked }
    ensures roots { (func : Name → Option ℕ) → Skips (roots_in func) }
    ensures instructions { (count : Inst → ℕ) → Skips count → (insts : List Inst)
        → over_insts count (filter is_unmarked insts) ≡ over_insts count insts }
    ensures places { (count : Inst → ℕ) → Skips count → (j m : Module) → strip j ≡ m → (f b p q : ℕ) → SameRest j m f b p q
        → before count j f b p ≡ before count m f b q }
{}

/// In a module with inserted code an instruction has the site that it has without that code, its roots have the same
/// numbers, and there are as many roots.
pub fn same_numbers()
    ensures sites { (j m : Module) → strip j ≡ m → (f b p q : ℕ) → SameRest j m f b p q → site_at j f b p ≡ site_at m f b q }
    ensures roots { (j m : Module) → strip j ≡ m → (f b p q : ℕ) → SameRest j m f b p q
        → root_at (func_index j.funcs) j f b p ≡ root_at (func_index m.funcs) m f b q }
    ensures number_of_roots { (m : Module) → count_roots (strip m) ≡ count_roots m }
{}
