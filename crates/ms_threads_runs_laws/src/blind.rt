//! Blind uses of runs with guest threads.
ghost use Rattle.std.specs.Prelude.{◌≡◌, ℕ, List, length};
ghost use Rattle.ms_ir.specs.declared.syntax.Module.{Module};
ghost use Rattle.ms_runs.specs.{declared.runs.Setup.{Setup}, Calls.{places_of}};
ghost use Rattle.ms_runs_laws.specs.Places.{uses_at};
ghost use Rattle.ms_runs_threads.specs.{PlainFibers.{plain_threads}, ShadowFibers.{shadow_threads}};
ghost use Rattle.ms_runs_threads.specs.Blind.{plain_threads_blind, shadow_threads_blind};

/// Each blind use of a plain run and of a shadow run has a site, under each schedule, so the counts of the places of blind uses
/// sum to their number.
pub fn thread_blind_one_each()
    ensures plain_blind { (m : Module) (setup : Setup) (schedule : List ℕ) → length (plain_threads_blind m setup schedule) ≡ (plain_threads m setup schedule).blind }
    ensures shadow_blind { (m : Module) (setup : Setup) (schedule : List ℕ) → length (shadow_threads_blind m setup schedule) ≡ (shadow_threads m setup schedule).blind }
    ensures plain_places { (m : Module) (setup : Setup) (schedule : List ℕ) → uses_at (places_of (plain_threads_blind m setup schedule)) ≡ (plain_threads m setup schedule).blind }
    ensures places { (m : Module) (setup : Setup) (schedule : List ℕ) → uses_at (places_of (shadow_threads_blind m setup schedule)) ≡ (shadow_threads m setup schedule).blind }
{}
