//! Laws about phis: each is followed by the phis of its mask and of its origin, and a jump reads them all at once. `is` are the
//! instructions of the block to which the jump goes, phis first.
ghost use Rattle.std.specs.Prelude.{◌≡◌, ℕ, drop, true, List};
ghost use Rattle.ms_ir.specs.{declared.syntax.Name.{Name}, declared.syntax.Inst.{Inst}};
ghost use Rattle.ms_runs.specs.{World.{Setting, Here}, Control.{phis, count_phis}, Act.{plain_reading}};
ghost use Rattle.ms_runs.specs.{Poisoned.{Poisoned, clean}, Shadow.{read_poisoned}};
ghost use Rattle.ms_pass_tasks.specs.{Environments.{Env, Given}, Known.{OneName, KnownPhis, PhiRoots}};
ghost use Rattle.ms_pass_tasks.specs.{Match.{Matches, RangedValues}, PassLists.{pass_insts, here_past}};

/// Where words matched before a jump from the block `from`, they match after it, once what is known to be clean has the
/// mask 0 there. What is left of the block after its phis is the instrumented form of what is left of the module's.
pub fn law_phis_take_masks()
    ensures masks { (given : Given) (s : Setting) (env : Env) (size : ℕ) → OneName env → (values : Name → Poisoned) (names : Name → ℕ)
        → Matches env values names → RangedValues values → (from : Name) (is : List Inst) → KnownPhis env size is
        → (h : Here) (n root : ℕ) → PhiRoots given.func is h.root
        → ((x : Name) → env.clean x ≡ true → (phis (read_poisoned s values) clean given.func from is h.root values x).mask ≡ 0)
        → Matches env (phis (read_poisoned s values) clean given.func from is h.root values)
        (phis (plain_reading.read s names) 0 given.func from (pass_insts given env is h n).code root names) }
    ensures left { (given : Given) (env : Env) (size : ℕ) (is : List Inst) → KnownPhis env size is → (h : Here) (n : ℕ)
        → drop (count_phis (pass_insts given env is h n).code) (pass_insts given env is h n).code
        ≡ (pass_insts given env (drop (count_phis is) is) (here_past given.func h is) n).code }
{}
