//! Poisoned bits come from what a run has reached.
ghost use Rattle.std.specs.Prelude.{◌≡◌, ℕ, Some, option_map, false};
ghost use Rattle.ms_ir.specs.{ThreadCalls.{is_threaded}, declared.syntax.Module.{Module}};
ghost use Rattle.ms_ir.specs.{Instructions.{site_at, NoMarks}, Roots.{root_numbered}};
ghost use Rattle.ms_runs.specs.{declared.runs.Setup.{Setup}, Masks.{Rules, by_completions}, Shadow.{ShadowState}};
ghost use Rattle.ms_check_valid.specs.{Formed.{Formed}, Valid.{Valid}};
ghost use Rattle.ms_runs_good_laws.specs.Reached.{FromReached, IsOperand, IsItself, IsEdge, due_site};
ghost use Rattle.ms_runs_good_laws.specs.{GoodRules.{KeepWidths}, GoodWorlds.{GivesBytes}};
ghost use Rattle.ms_runs_clean_laws.specs.KeepClean.{KeepClean};

/// In every state of a shadow run of a formed and valid module without marks, and at its end, the origin of each word with a
/// poisoned bit and of each byte with one leads back, over stores that ran, to a root that the run has reached; so does the
/// trail that each report shows. This is so for any depth of trails, and by any rules for masks that keep to widths and
/// poison nothing of their own.
pub fn origins_lead_back()
    ensures by_completions { (m : Module) → Formed m → Valid m → is_threaded m ≡ false → NoMarks m → (setup : Setup) → GivesBytes setup → FromReached by_completions m setup }
    ensures by_rules { (d : Rules) → KeepClean d → KeepWidths d → (m : Module) → Formed m → Valid m → is_threaded m ≡ false → NoMarks m → (setup : Setup) → GivesBytes setup → FromReached d m setup }
{}

/// A root that is reached is listed with the site of the instruction that makes it: the one that is due, whose operand it is or
/// which it is itself, or the phi whose edge is taken.
pub fn reached_roots_are_listed()
    ensures operands { (m : Module) → NoMarks m → (state : ShadowState) (id : ℕ) (h : IsOperand m state id) → option_map (λ r. r.site) (root_numbered m id) ≡ Some (due_site m h.due) }
    ensures instructions { (m : Module) → NoMarks m → (state : ShadowState) (id : ℕ) (h : IsItself m state id) → option_map (λ r. r.site) (root_numbered m id) ≡ Some (due_site m h.due) }
    ensures edges { (m : Module) → NoMarks m → (before after : ShadowState) (id : ℕ) (h : IsEdge m before after id)
        → option_map (λ r. r.site) (root_numbered m id) ≡ Some (site_at m h.frame.func h.frame.block h.place) }
{}
