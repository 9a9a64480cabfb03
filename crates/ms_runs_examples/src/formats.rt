//! What `printf` does, computed by the prover: how formats are cut, what they print, which calls trap, and which are reported.
//! The expected values are worked out by hand. `prints_by` is a module that calls `printf` with a format and arguments.
ghost use Rattle.std.specs.Prelude.{◌≡◌, [], ◌∷◌, ◌++◌, codes, true, false};
ghost use Rattle.ms_bits.specs.declared.traps.Trap.TheVariants as trap;
ghost use Rattle.ms_ir.specs.declared.syntax.Operand.TheVariants as operand;
ghost use Rattle.ms_ir.specs.declared.syntax.Ty as ty;
ghost use Rattle.ms_ir.specs.Builders.{i32, i64, int, undef};
ghost use Rattle.ms_runs.specs.declared.formats.Piece.TheVariants.{Text, Dec32, Str, Dec64, Hex64};
ghost use Rattle.ms_runs_examples.specs.Setups.{defaults, prints, trapped, reported, report};
ghost use Rattle.ms_runs.specs.{Formats.{cut_of, asks_string}, Plain.{plain}, Shadow.{shadow}};
ghost use Rattle.ms_runs.specs.declared.runs.End.TheVariants as «end»;
ghost use Rattle.ms_runs_examples.specs.RunPrograms.{prints_by, letter_v, no_string};

/// Formats cut into pieces, and the arguments that are strings.
pub fn formats_are_cut()
    ensures mixed { cut_of (codes "%d %s%lx") ≡ record { pieces = Dec32 ∷ Text (codes " ") ∷ Str ∷ Hex64 ∷ []; bad = false } }
    ensures percent { cut_of (codes "a%%%%b") ≡ record { pieces = Text (codes "a") ∷ Text (codes "%") ∷ Text (codes "%") ∷ Text (codes "b") ∷ []; bad = false } }
    ensures width { cut_of (codes "%ld%5d%s") ≡ record { pieces = Dec64 ∷ []; bad = true } }
    ensures percent_at_the_end { cut_of (codes "a%") ≡ record { pieces = Text (codes "a") ∷ []; bad = true } }
    ensures long_string { cut_of (codes "%ls") ≡ record { pieces = []; bad = true } }
    ensures format_itself { asks_string (codes "%s") 0 ≡ false }
    ensures first_argument { asks_string (codes "%%%s") 1 ≡ true }
    ensures second_argument { asks_string (codes "%s%d") 2 ≡ false }
    ensures after_a_bad_place { asks_string (codes "%q%s") 1 ≡ false }
{}

/// Calls that print, and those that trap and print nothing.
pub fn calls_print()
    ensures numbers_and_a_string { plain (prints_by (codes "%d %s%lx" ++ 10 ∷ 0 ∷ []) ((i32, int 4294967291) ∷ letter_v ∷ (i64, int 255) ∷ [])) defaults ≡ prints (codes "-5 vff" ++ 10 ∷ []) («end».Exit 7) }
    ensures zero_byte { plain (prints_by (codes "%c%x%u" ++ 0 ∷ []) ((i32, int 256) ∷ (i32, int 0) ∷ (i32, int 4294967295) ∷ [])) defaults ≡ prints (0 ∷ codes "04294967295") («end».Exit 12) }
    ensures least_number { plain (prints_by (codes "%ld" ++ 0 ∷ []) ((i64, int 9223372036854775808) ∷ [])) defaults ≡ prints (codes "-9223372036854775808") («end».Exit 20) }
    ensures surplus { plain (prints_by (codes "a" ++ 0 ∷ []) ((ty.Ptr, operand.Null) ∷ [])) defaults ≡ prints (codes "a") («end».Exit 1) }
    ensures width { plain (prints_by (codes "%5d" ++ 0 ∷ []) ((i32, int 1) ∷ [])) defaults ≡ trapped trap.Format 1 }
    ensures missing { plain (prints_by (codes "%d" ++ 0 ∷ []) []) defaults ≡ trapped trap.Format 1 }
    ensures another_type { plain (prints_by (codes "%ld" ++ 0 ∷ []) ((i32, int 1) ∷ [])) defaults ≡ trapped trap.Format 1 }
    ensures format_without_end { plain (prints_by (codes "ab") []) defaults ≡ trapped trap.BadAddress 1 }
    ensures string_without_end { plain (prints_by (codes "%d%s%q" ++ 0 ∷ []) ((i64, int 1) ∷ no_string ∷ [])) defaults ≡ trapped trap.BadAddress 1 }
    ensures string_after_a_bad_place { plain (prints_by (codes "%q%s" ++ 0 ∷ []) (no_string ∷ [])) defaults ≡ trapped trap.Format 1 }
{}

/// Calls of which words are reported; the format is argument 0.
pub fn calls_are_reported()
    ensures value { shadow (prints_by (codes "%d %s%lx" ++ 10 ∷ 0 ∷ []) ((i32, undef) ∷ letter_v ∷ (i64, int 255) ∷ [])) defaults ≡ reported (report 1 7 1 0xffffffff 32 1) }
    ensures surplus { shadow (prints_by (codes "a" ++ 0 ∷ []) ((i32, int 1) ∷ (i64, undef) ∷ [])) defaults ≡ reported (report 1 7 2 0xffffffffffffffff 64 1) }
    ensures clean { shadow (prints_by (codes "%s" ++ 0 ∷ []) (letter_v ∷ [])) defaults ≡ prints (codes "v") («end».Exit 1) }
{}
