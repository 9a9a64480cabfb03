//! What places of blind uses say of the uses.
ghost use Rattle.std.specs.Prelude.{◌≡◌, ℕ, List, length};
ghost use Rattle.ms_runs.specs.Calls.{places_of};
ghost use Rattle.ms_runs_laws.specs.Places.{uses_at, uses_of, times, EachOnce};

/// Of the sites of uses, in order, the places have each once, and count it as often as it stands there; so all counts
/// together are the number of uses.
pub fn counts_add_up()
    ensures sum { (sites : List ℕ) → uses_at (places_of sites) ≡ length sites }
    ensures each { (sites : List ℕ) (site : ℕ) → uses_of site (places_of sites) ≡ times site sites }
    ensures once { (sites : List ℕ) → EachOnce (places_of sites) }
{}
