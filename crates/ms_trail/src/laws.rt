//! What code decides of the shadow meaning of its instruction: laws, each a public function with an empty body, whose promise is
//! the law.
ghost use Rattle.std.specs.Prelude.{◌≡◌, ℕ, List, false};
ghost use Rattle.ms_ir.specs.{declared.syntax.Name.{Name}, declared.syntax.Ty.{Ty}, declared.syntax.Operand.{Operand}};
ghost use Rattle.ms_ir.specs.{declared.syntax.Inst.{Inst}, Instructions.{func_index, operands}};
ghost use Rattle.ms_runs.specs.{declared.runs.Setup.{Setup}, World.{World, Setting}, Poisoned.{Poisoned}};
ghost use Rattle.ms_runs.specs.{Masks.{result_origin}, Uses.{CheckedUse, uses, check_uses}};
ghost use Rattle.ms_trail_moves.specs.{declared.moves.Source.{Source as SourceOf}, Sources.{placed}, Traces.{read_by}};
ghost use Rattle.ms_machine_code.specs.{declared.code.Code.{Code}, Encodes.{Where, Encodes, in_main}};
ghost use Rattle.ms_trail_masks.specs.{Shades.{HoldsShades}, Results.{IsComputed, words_read}};
ghost use Rattle.ms_trail_uses.specs.{Used.{first_read, code_read, source_of, Checked}, Origins.{place_read}};

/// What code finds to be used is what the instruction that it stands for is checked for.
pub fn law_uses_are_found()
    ensures { (fill xs ms : List ℕ) (at : Where) (u : Setup) (values : Name → Poisoned) (root : ℕ) (world : World) → u.fill ≡ fill → HoldsShades at.names xs ms values
        → (k : Code) (inst : Inst) → inst.marked ≡ false → Encodes at k inst → code_read fill xs ms world inst.op k ≡ first_read world (words_read at u values inst root) (uses (func_index at.whole.funcs) (in_main at) inst.op) }
{}

/// Where nothing is found the checks pass, and else the run ends at its first report, whose use reads what was found.
pub fn law_found_uses_end()
    ensures read { (w : World) (ps : List Poisoned) (ss : List SourceOf) (us : List CheckedUse) → read_by w ps ss us ≡ source_of ss (first_read w ps us) }
    ensures checked { (s : Setting) → s.limit ≡ 1 → (w : World) (site : ℕ) (os : List (Ty × Operand)) (ps : List Poisoned) (us : List CheckedUse) → Checked w (first_read w ps us) (check_uses s site os ps us w) }
{}

/// The operand from which a result's origin comes has the place that code finds.
pub fn law_origins_are_found()
    ensures { (fill xs ms : List ℕ) (at : Where) (u : Setup) (values : Name → Poisoned) → u.fill ≡ fill → HoldsShades at.names xs ms values → (root : ℕ) (world : World) (n : ℕ) (k : Code) (inst : Inst) → IsComputed n k → Encodes at k inst
        → place_read fill xs ms inst.op k ≡ result_origin inst.op (placed 0 (words_read at u values inst root)) 0 world }
{}
