//! What code reads decides its masks: laws, each a public function with an empty body, whose promise is the law.
ghost use Rattle.std.specs.Prelude.{◌≡◌, ℕ, List, map};
ghost use Rattle.ms_ir.specs.{declared.syntax.Name.{Name}, declared.syntax.Ty.{Ty}, declared.syntax.Operand.{Operand}};
ghost use Rattle.ms_ir.specs.declared.syntax.Module.{Module};
ghost use Rattle.ms_runs.specs.{declared.runs.Setup.{Setup}, Control.{read_all}, Plain.{setting_of}};
ghost use Rattle.ms_runs.specs.{Poisoned.{Poisoned}, Shadow.{operand_mask, read_poisoned}};
ghost use Rattle.ms_machine_code.specs.{declared.code.WordSource.{WordSource as WordSourceOf}, declared.code.Edge.{Edge as EdgeOf}};
ghost use Rattle.ms_machine_code.specs.{Reads.{Holds, Reads, ReadsAll}, Encodes.{Where, Leads}};
ghost use Rattle.ms_trail_masks.specs.Shades.{mask_of as mask_read, masks_of, masks_moved, shades_at};

/// A source that reads the word of an operand reads its mask too, where the masks of values stand by number.
pub fn law_operands_have_masks()
    ensures { (m : Module) (names : List Name) (w : ℕ) (s : WordSourceOf) (o : Operand) → Reads m names w s o → (ms : List ℕ) (values : Name → Poisoned) → Holds names ms (λ x. (values x).mask)
        → mask_read ms s ≡ operand_mask values w o }
{}

/// The sources of a call's arguments read their masks too, where the masks of values stand by number.
pub fn law_arguments_have_masks()
    ensures { (m : Module) (names : List Name) (ss : List WordSourceOf) (os : List (Ty × Operand)) → ReadsAll m names ss os → (u : Setup) (ms : List ℕ) (values : Name → Poisoned) → Holds names ms (λ x. (values x).mask)
        → (n : ℕ) → masks_of ms ss ≡ map (λ p. p.mask) (read_all (read_poisoned (setting_of m u) values) os n) }
{}

/// An edge that does the phis of a block does their masks too.
pub fn law_phis_have_masks()
    ensures { (at : Where) (e : EdgeOf) (to : Name) → Leads at e to → (u : Setup) (ms : List ℕ) (values : Name → Poisoned) → Holds at.names ms (λ x. (values x).mask)
        → Holds at.names (masks_moved ms e.moves) (λ x. (shades_at at u to values x).mask) }
{}
