//! Exploring all schedules: one run after the other, each begun otherwise than those before it.
ghost use Rattle.std.specs.Prelude.{◌≡◌, ◌<◌, ℕ, List, [], ◌∷◌, ◌++◌, length, get_or, map};
ghost use Rattle.ms_threads_schedules_laws.specs.{Picks.{Pick, number_at}, Trees.{Somewhere, Within, branches}, Explored.{IsTree, Explored, Covers, Reads, Exploring}};
ghost use Rattle.ms_threads_schedules_laws.specs.Exploration.{schedules_run, beginnings_left, AreShort};

/// At first nothing is seen and the empty beginning is left. A run of a beginning, wherever that stands, leaves its branches: no run
/// is seen twice (`Exploring`). The order of what is left is free. Where nothing is left, each schedule picks as a run that
/// was seen; where a beginning is left, some schedule picks otherwise than all of them.
pub fn exploring()
    ensures first { (picks : List ℕ → List Pick) → IsTree picks → Exploring picks [] ([] ∷ []) }
    ensures run { (picks : List ℕ → List Pick) → IsTree picks → (seen : List (List Pick)) (before : List (List ℕ)) (told : List ℕ) (after : List (List ℕ)) → Exploring picks seen (before ++ told ∷ after)
        → (own : List ℕ) → Reads own 0 told → Exploring picks (picks own ∷ seen) ((before ++ after) ++ branches told (picks own)) }
    ensures reordered { (picks : List ℕ → List Pick) (seen other : List (List Pick)) (left more : List (List ℕ)) → Within seen other → Within left more → Explored picks seen left → Explored picks other more }
    ensures last { (picks : List ℕ → List Pick) (seen : List (List Pick)) → Explored picks seen [] → Covers picks seen }
    ensures more { (picks : List ℕ → List Pick) → IsTree picks → (seen : List (List Pick)) (told : List ℕ) (left : List (List ℕ)) → Exploring picks seen (told ∷ left)
        → (schedule : List ℕ) × (Somewhere (λ ps. picks schedule ≡ ps) seen → ⊥) }
{}

/// A schedule has the numbers of a beginning where it has them at the first places, as the beginning has with anything put after
/// it.
pub fn beginnings_are_read()
    ensures places { (schedule told : List ℕ) → ((j : ℕ) → j < length told → number_at schedule j ≡ get_or told j 0) → Reads schedule 0 told }
    ensures padded { (told rest : List ℕ) → Reads (told ++ rest) 0 told }
{}

/// Beginnings are taken from a queue, each run on with zeros, and its branches put behind the others. Where the queue is empty after
/// so many runs, and none of them made more picks than are varied, each schedule picks as one of them.
pub fn queue_covers()
    ensures { (picks : List ℕ → List Pick) → IsTree picks → (count : ℕ) → AreShort picks (schedules_run picks count) → beginnings_left picks count ≡ []
        → Covers picks (map picks (schedules_run picks count)) }
{}
