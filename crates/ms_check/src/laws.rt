//! Laws about what a check returns.
ghost use Rattle.std.specs.Prelude.{◌≡◌};
ghost use Rattle.ms_ir.specs.declared.syntax.Module.{Module};
ghost use Rattle.ms_check_valid.specs.{Refusals.{Fault, IsRefused}, Valid.{Valid}};
ghost use Rattle.ms_check.specs.Faults.{without_path};

/// A module that is refused isn't valid, and it is refused for one fault alone, but for the path that shows an undefined
/// use.
pub fn law_one_answer()
    ensures invalid { (m : Module) (fault : Fault) → IsRefused m fault → ¬ Valid m }
    ensures unique { (m : Module) (x y : Fault) → IsRefused m x → IsRefused m y → without_path x ≡ without_path y }
{}
