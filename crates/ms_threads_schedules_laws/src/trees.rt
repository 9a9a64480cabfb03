//! What runs of fibers under different schedules have in common.
ghost use Rattle.std.specs.Prelude.{◌≡◌, ℕ, List};
ghost use Rattle.ms_ir.specs.declared.syntax.Module.{Module};
ghost use Rattle.ms_runs.specs.declared.runs.Setup.{Setup};
ghost use Rattle.ms_runs_threads.specs.{PlainFibers.{plain_threads}, ShadowFibers.{shadow_threads}};
ghost use Rattle.ms_threads_schedules_laws.specs.{Picks.{plain_picks, shadow_picks, schedule_of, Chooses}, Explored.{IsTree}};

/// Runs of a module pick in one tree, whatever their schedules are, and each chooses by the numbers of its schedule; where a schedule
/// chooses as another one's run did, its run is the same; and so it is where they picked the same. It is so of every run of
/// fibers, by the lemmas that are cited.
pub fn schedules_of_one_tree()
    ensures plain { (m : Module) (setup : Setup) → IsTree (plain_picks m setup) }
    ensures shadow { (m : Module) (setup : Setup) → IsTree (shadow_picks m setup) }
    ensures plain_repeats { (m : Module) (setup : Setup) (a b : List ℕ) → Chooses b 0 (plain_picks m setup a) → (plain_picks m setup b ≡ plain_picks m setup a) × (plain_threads m setup b ≡ plain_threads m setup a) }
    ensures shadow_repeats { (m : Module) (setup : Setup) (a b : List ℕ) → Chooses b 0 (shadow_picks m setup a) → (shadow_picks m setup b ≡ shadow_picks m setup a) × (shadow_threads m setup b ≡ shadow_threads m setup a) }
    ensures plain_same { (m : Module) (setup : Setup) (a b : List ℕ) → plain_picks m setup b ≡ plain_picks m setup a → plain_threads m setup b ≡ plain_threads m setup a }
    ensures shadow_same { (m : Module) (setup : Setup) (a b : List ℕ) → shadow_picks m setup b ≡ shadow_picks m setup a → shadow_threads m setup b ≡ shadow_threads m setup a }
{}

/// The picks that a run made, as a schedule, choose as the run did: with `schedules_of_one_tree` they repeat it.
pub fn printed_schedules()
    ensures plain { (m : Module) (setup : Setup) (a : List ℕ) → Chooses (schedule_of (plain_picks m setup a)) 0 (plain_picks m setup a) }
    ensures shadow { (m : Module) (setup : Setup) (a : List ℕ) → Chooses (schedule_of (shadow_picks m setup a)) 0 (shadow_picks m setup a) }
{}
