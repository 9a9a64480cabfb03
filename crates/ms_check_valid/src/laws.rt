//! Laws about validity: how paths are tested, which clauses make a module valid or refuse it, what is set where it is used. `n`,
//! `b` and `p` number a function, a block in it and an instruction in that.
ghost use Rattle.std.specs.Prelude.{◌≡◌, ◌↔◌, ◌⊎◌, ◌++◌, ℕ, List, [], ◌∷◌, false, Some, Contains, length, slice_get};
ghost use Rattle.ms_flow.specs.Paths as flow;
ghost use Rattle.ms_ir.specs.{declared.syntax.Func.{Func}, declared.syntax.Inst.{Inst}};
ghost use Rattle.ms_ir.specs.{declared.syntax.Module.{Module}, declared.syntax.Block.{Block}};
ghost use Rattle.ms_ir.specs.{declared.syntax.Name.{Name}, declared.syntax.Operand.{Operand}, declared.syntax.Ty.{Ty}};
ghost use Rattle.ms_ir.specs.Instructions.{operands, block_index, func_at, insts_at, is_phi};
ghost use Rattle.ms_ir.specs.{Places.{HasSmallNumbers}, Locals.{parameter_names, locals, value_type}};
ghost use Rattle.ms_ir.specs.Written.{result_type};
ghost use Rattle.ms_ir.specs.declared.syntax.Op.TheVariants as op;
ghost use Rattle.ms_ir.specs.declared.syntax.Operand.TheVariants as operand;
ghost use Rattle.ms_check_valid.specs.{Paths.{IsSet, Path, ValueUse, IsDefined, Misses, insts_of}, Valid.{Valid}};
ghost use Rattle.ms_check_valid.specs.{Formed.{Formed}, ValidAt.{FitsOutside, FitsWithin}};
ghost use Rattle.ms_check_valid.specs.{Refusals.{Fault, IsFirstUndefined, IsRefused}, UsesDefined.{UsesDefined}};
ghost use Rattle.ms_check_valid.specs.{PathTest.{undefined_uses}, FlowGraph.{graph_of, flow_use}};

/// Where no use fails the test that can be computed (`undefined_uses`), each use is defined on every path to it.
pub fn law_tested_paths()
    ensures { (m : Module) → undefined_uses m ≡ [] → UsesDefined m }
{}

/// The paths through a function are those of its graph (of numbers, for `ms_flow`), a value of the function that is no parameter is
/// defined where it is used exactly where its number is in the graph, and a path that misses a definition of its number misses one
/// of the value.
pub fn law_graph_paths()
    ensures paths { (f : Func) (blocks : List ℕ) → Path f blocks ↔ flow.IsPath (graph_of f) blocks }
    ensures uses { (f : Func) (place : ValueUse) → Contains (locals f) place.name → ¬ Contains (parameter_names f) place.name
        → IsDefined f place ↔ flow.IsDefined (graph_of f) (flow_use f place) }
    ensures missed { (f : Func) (place : ValueUse) (path : List ℕ) → ¬ Contains (parameter_names f) place.name
        → flow.Misses (graph_of f) (flow_use f place) path → Misses f place path }
{}

/// A module is valid exactly where it breaks no clause outside its instructions, and none at each of them, which is seen
/// with the site that runs name it by.
pub fn law_valid_parts()
    ensures { (m : Module) → Valid m ↔ (FitsOutside m × FitsWithin m) }
{}

/// A module that is refused isn't valid, and once it is known whether each use is defined, a module is the one or the other.
pub fn law_refusals()
    ensures invalid { (m : Module) (fault : Fault) → IsRefused m fault → ¬ Valid m }
    ensures either { (m : Module) → UsesDefined m ⊎ ((site : ℕ) × (path : List ℕ) × IsFirstUndefined m site path)
        → Valid m ⊎ ((fault : Fault) × IsRefused m fault) }
{}

/// What an instruction of a valid module uses is set when its turn comes: an operand on each path that leads to the
/// instruction, and a phi's operand on each path to the block that it names, at that block's end.
pub fn law_set_values()
    ensures operands { (m : Module) → Valid m → (n b p : ℕ) (f : Func) (inst : Inst) → func_at m n ≡ Some f → slice_get (insts_at m n b) p ≡ Some inst
        → is_phi inst.op ≡ false → (t : Ty) (x : Name) → Contains (operands inst.op) (t, operand.Local x)
        → (before : List ℕ) → Path f (before ++ b ∷ []) → IsSet f before b p x }
    ensures edges { (m : Module) → Valid m → (n b p : ℕ) (f : Func) (inst : Inst) → func_at m n ≡ Some f → slice_get (insts_at m n b) p ≡ Some inst
        → (t : Ty) (edges : List (Operand × Name)) → inst.op ≡ op.Phi t edges → (x from : Name) → Contains edges (operand.Local x, from)
        → (before : List ℕ) → Path f (before ++ block_index f.blocks from ∷ [])
        → IsSet f before (block_index f.blocks from) (length (insts_of f (block_index f.blocks from))) x }
{}

/// The type of a value of a valid module is that of its parameter, or of what the instruction answers that gives it.
pub fn law_typed_values()
    ensures results { (m : Module) → Valid m → (n : ℕ) (f : Func) → func_at m n ≡ Some f → (b p : ℕ) (k : Block) (inst : Inst) (x : Name) (t : Ty)
        → slice_get f.blocks b ≡ Some k → slice_get k.insts p ≡ Some inst → inst.result ≡ Some x → result_type inst.op ≡ Some t → value_type f x ≡ Some t }
    ensures parameters { (m : Module) → Valid m → (n : ℕ) (f : Func) → func_at m n ≡ Some f → (k : ℕ) (t : Ty) (x : Name)
        → slice_get f.params k ≡ Some (t, x) → value_type f x ≡ Some t }
{}

/// A formed module has few instructions, so its sites, and the numbers of its functions, of blocks and of instructions in a
/// block, have 32 bits: its sites, places and roots may be asked for.
pub fn law_small_numbers()
    ensures { (m : Module) → Formed m → HasSmallNumbers m }
{}
