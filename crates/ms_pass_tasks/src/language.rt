//! Laws about the language of inserted code: a `Task` is one thing that it does, as a check or a store to shadow; `tasks_code`
//! makes instructions of tasks, whose temporaries are inserted results. `v`, `u`: words of a frame; `w`: the world.
ghost use Rattle.std.specs.Prelude.{◌≡◌, ◌≤◌, ℕ, true, List};
ghost use Rattle.ms_ir.specs.Names.{is_reserved};
ghost use Rattle.ms_runs.specs.World.{World, Setting, Here};
ghost use Rattle.ms_pass_tasks.specs.Tasks.{msan_name, Task, tasks_code};
ghost use Rattle.ms_pass_tasks.specs.Meaning.{Values, AllMarked, run_marked, do_tasks, Same, Reaches, BelowTasks};

/// Tasks have a meaning without temporaries. The instructions that they become come to the same, whatever stands in the
/// inserted names from `base` on: the run is over in the same way and in the same world, or it goes on in the same world
/// with the same slots and the same words but for those names (`Same`). `n` is the number of the first temporary.
pub fn law_code_does_its_tasks()
    ensures runs { (s : Setting) (h : Here) (base : ℕ) (ts : List Task) → BelowTasks base ts → (n : ℕ) → base ≤ n
        → (v u : Values) (w : World) → Same base v u
        → Reaches base (do_tasks s h ts v w) (run_marked s h (tasks_code ts n).code u w) }
{}

/// All the instructions that tasks become are marked, none is a phi, and their temporaries have the numbers from `n` on.
pub fn law_code_is_marked()
    ensures marked { (ts : List Task) (n : ℕ) → AllMarked (tasks_code ts n).code }
    ensures numbers { (ts : List Task) (n : ℕ) → n ≤ (tasks_code ts n).next }
{}

/// Inserted names are told apart by their numbers, and are among those that are kept for what is inserted.
pub fn law_inserted_names_differ()
    ensures apart { (j k : ℕ) → msan_name j ≡ msan_name k → j ≡ k }
    ensures reserved { (k : ℕ) → is_reserved (msan_name k) ≡ true }
{}
