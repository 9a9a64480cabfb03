//! How example modules run: laws about the definitions, computed by the prover. The values are worked out by hand from what
//! docs/DEFINITIONS.md says. `0xa5` is the one byte of the default fill. `specs/Externals.antt` and `Programs.antt` have the
//! modules: `calls_on_..` is a `main` that calls an external with these arguments on such memory, and then does the rest.
//! `Setups.antt` has setups (`defaults`, another fill, input or bound of steps), and what runs return (`exits`, `trapped` at a
//! site).
ghost use Rattle.std.specs.Prelude.{◌≡◌, length, [], ◌∷◌, ◌++◌, codes, get_or, Ok, Err, true, false, Some, None};
ghost use Rattle.ms_bits.specs.declared.traps.Trap.TheVariants as trap;
ghost use Rattle.ms_runs.specs.declared.runs.End.TheVariants as «end»;
ghost use Rattle.ms_ir.specs.declared.syntax.Op.TheVariants as op;
ghost use Rattle.ms_ir.specs.declared.syntax.Operand.TheVariants as operand;
ghost use Rattle.ms_ir.specs.declared.syntax.Ty as ty;
ghost use Rattle.ms_runs_examples.specs.Programs.{returns_zero, branch_on_unset, masked_to_zero, ordered_compare, set_bit_is_not_zero, select_undef, two_unset, shared_cell, lost_in_addition, recursion, nested_call, write_with_gap, store_to_shadow, clang_unoptimised, store_and_load, sum_wraps, undef_divisor, frozen, three_branches, undef_sum, undef_stored, carry_of_undef};
ghost use Rattle.ms_runs_examples.specs.Externals.{returns_is_null, returns_word_at, returns_low, returns_address, heap_filled, zeroed, freed, grown, grown_too_far, calls_on_two_bytes, calls_on_four_bytes, calls_on_word, reads_twice, made_anew, own_malloc, chooses, swaps, takes_room_back, reads_room_of_callee, odd_width, steps_back, reads_across, with_globals, inner_word};
ghost use Rattle.ms_runs_examples.specs.Marks.{inserts, inserts_call, inserted, unpoisons, copies_up, fills, stores_origin, looks_at_string, checks_loaded_origin, checks_loaded_shadow, checks_slot, checks_size, marked, on_heap, poisons, looks, checks, shadow_address, bad_ranges, branch_on_unset_checked, nested_call_checked, with_slots, mask_slot, result_mask};
ghost use Rattle.ms_runs_examples.specs.Setups.{counted, one_to_five, defaults, filled, fed, steps, exits, prints, spent, trapped, reported, report, report_unknown};
ghost use Rattle.ms_runs.specs.{Act.{plain_reading}, Externals.{printed}, World.{World, Gives, traps}};
ghost use Rattle.ms_runs.specs.{Control.{On, Over, entered}, Plain.{plain, setting_of}};
ghost use Rattle.ms_ir.specs.Declarations as calls;
ghost use Rattle.ms_ir.specs.Builders.{i8, i32, i64, array, struct_of_three, int, local, sets, does, call, alloca, ret, name, main_of, returns, unreachable, calls_first};
ghost use Rattle.ms_ir.specs.{Instructions.{strip, count_roots, root_at, site_at}, Layout.{size_of}};
ghost use Rattle.ms_bits.specs.{NoFlags.{no_flags}, Arithmetic.{binary_of}, Conversions.{compare_of, cast_of}};
ghost use Rattle.ms_bits.specs.{Fill.{undef_word_of}, Maps.{bytes_at, copied, copied_cells}};
ghost use Rattle.ms_bits.specs.declared.operations.BinOp.TheVariants as binary;
ghost use Rattle.ms_bits.specs.declared.operations.CastOp.TheVariants as cast;
ghost use Rattle.ms_bits.specs.declared.operations.Pred.TheVariants as predicate;
ghost use Rattle.ms_runs_examples.specs.CallFrames.{frame_at_call, frames_at_call, recursion_world, called_above};

/// Whole programs under plain runs.
pub fn modules()
    ensures returns_zero { plain returns_zero defaults ≡ exits 0 }
    ensures branch_on_unset { plain branch_on_unset defaults ≡ exits 1 }
    ensures branch_on_zero { plain branch_on_unset (filled (0 ∷ [])) ≡ exits 0 }
    ensures masked_to_zero { plain masked_to_zero defaults ≡ exits 0 }
    ensures ordered_compare { plain (ordered_compare 16) defaults ≡ exits 1 }
    ensures ordered_compare_above { plain (ordered_compare 40) defaults ≡ exits 0 }
    ensures set_bit_is_not_zero { plain set_bit_is_not_zero defaults ≡ exits 1 }
    ensures select_undef { plain select_undef defaults ≡ exits 6 }
    ensures two_unset { plain two_unset defaults ≡ exits 0 }
    ensures shared_cell { plain shared_cell defaults ≡ prints (0xa5 ∷ 0xa5 ∷ 0 ∷ []) («end».Exit 0) }
    ensures addition_of_zeros { plain lost_in_addition (filled (0 ∷ [])) ≡ prints (65 ∷ []) («end».Exit 0) }
    ensures addition_of_ones { plain lost_in_addition (filled (1 ∷ [])) ≡ prints (66 ∷ []) («end».Exit 0) }
    ensures recursion { plain (recursion 10) defaults ≡ exits 7 }
    ensures nested_call { plain nested_call defaults ≡ exits 0xa5a5a5a5 }
    ensures write_with_gap { plain write_with_gap defaults ≡ prints (62 ∷ 65 ∷ 65 ∷ 0xa5 ∷ 66 ∷ []) («end».Exit 0) }
    ensures store_to_shadow { plain store_to_shadow defaults ≡ trapped trap.BadAddress 5 }
    ensures clang_unoptimised { plain clang_unoptimised defaults ≡ prints (111 ∷ 107 ∷ 10 ∷ []) («end».Exit 0) }
    ensures store_and_load { plain (store_and_load (does (op.Store i32 (int 12) (local 1)) ∷ [])) defaults ≡ exits 6 }
    ensures load_of_unset { plain (store_and_load []) defaults ≡ exits 2779096495 }
    ensures sum_wraps { plain sum_wraps defaults ≡ trapped trap.Nsw 1 }
    ensures undef_divisor { plain undef_divisor (filled (0 ∷ [])) ≡ trapped trap.ZeroDivisor 1 }
    ensures frozen { plain frozen defaults ≡ exits 2779096485 }
    ensures frozen_zero { plain frozen (filled (0 ∷ [])) ≡ exits 0 }
    ensures undef_sum { plain undef_sum (filled (0 ∷ [])) ≡ exits 1 }
    ensures undef_sum_wraps { plain undef_sum (filled (0xff ∷ 0xff ∷ 0xff ∷ 0x7f ∷ [])) ≡ trapped trap.Nsw 1 }
    ensures undef_stored { plain undef_stored defaults ≡ exits 0xa5 }
    ensures carry_of_undef { plain carry_of_undef defaults ≡ exits 3 }
    ensures carry_of_ones { plain carry_of_undef (filled (0xff ∷ [])) ≡ exits 19 }
    ensures three_branches { plain three_branches defaults ≡ prints (97 ∷ 98 ∷ 99 ∷ []) («end».Exit 0) }
{}

/// The bound of steps.
pub fn bounds()
    ensures no_step { plain returns_zero (steps 0) ≡ spent }
    ensures one_step { plain returns_zero (steps 1) ≡ exits 0 }
    ensures three_of_five_steps { plain branch_on_unset (steps 3) ≡ spent }
    ensures four_of_five_steps { plain branch_on_unset (steps 4) ≡ spent }
    ensures five_steps { plain branch_on_unset (steps 5) ≡ exits 1 }
{}

/// The externals of the heap.
pub fn heap()
    ensures malloc { plain (calls_first calls.malloc (int 4 ∷ []) (returns_word_at 1)) one_to_five ≡ exits 0x04030201 }
    ensures malloc_to_the_limit { plain heap_filled defaults ≡ exits 2 }
    ensures malloc_past_the_limit { plain (calls_first calls.malloc (int 67108865 ∷ []) (returns_is_null 1)) defaults ≡ exits 1 }
    ensures own_malloc { plain own_malloc defaults ≡ exits 1 }
    ensures calloc { plain zeroed one_to_five ≡ exits 0x04030201 }
    ensures calloc_of_a_great_product { plain (calls_first calls.calloc (int 0x8000000000000000 ∷ int 2 ∷ []) (returns_is_null 1)) defaults ≡ exits 1 }
    ensures realloc_keeps { plain (grown (returns_word_at 2)) defaults ≡ exits 7 }
    ensures realloc_makes { plain (grown (returns_word_at 3)) (filled (1 ∷ 2 ∷ 3 ∷ 4 ∷ 5 ∷ 6 ∷ 7 ∷ 8 ∷ 9 ∷ 10 ∷ 11 ∷ 12 ∷ [])) ≡ exits 0x0c0b0a09 }
    ensures realloc_ends { plain (grown (does (call calls.free (local 1 ∷ [])) ∷ [])) defaults ≡ trapped trap.BadFree 5 }
    ensures realloc_past_the_limit { plain grown_too_far defaults ≡ exits 8 }
    ensures realloc_of_null { plain (calls_first calls.realloc (operand.Null ∷ int 4 ∷ []) (returns_word_at 1)) one_to_five ≡ exits 0x04030201 }
    ensures realloc_of_no_block { plain (calls_on_word calls.realloc (local 1 ∷ int 4 ∷ []) (returns_word_at 2)) defaults ≡ trapped trap.BadFree 2 }
    ensures free_of_null { plain (calls_first calls.free (operand.Null ∷ []) (does (ret (int 3)) ∷ [])) defaults ≡ exits 3 }
    ensures free_twice { plain (freed (does (call calls.free (local 1 ∷ [])) ∷ [])) defaults ≡ trapped trap.BadFree 3 }
    ensures ended_blocks_count { plain (main_of (sets 1 (call calls.malloc (int 67108864 ∷ [])) ∷ does (call calls.free (local 1 ∷ [])) ∷ sets 3 (call calls.malloc (int 1 ∷ [])) ∷ returns_is_null 3) (calls.malloc ∷ calls.free ∷ [])) defaults ≡ exits 1 }
    ensures malloc_of_nothing { plain (calls_first calls.malloc (int 0 ∷ []) (returns_is_null 1)) defaults ≡ exits 0 }
    ensures nothing_takes_room { plain (calls_first calls.malloc (int 0 ∷ []) (sets 2 (call calls.malloc (int 1 ∷ [])) ∷ returns_address 2)) defaults ≡ exits 16 }
    ensures realloc_makes_all { plain (main_of (sets 1 (call calls.malloc (int 4 ∷ [])) ∷ sets 2 (call calls.realloc (local 1 ∷ int 8 ∷ [])) ∷ sets 3 (call calls.malloc (int 4 ∷ [])) ∷ returns_word_at 3) (calls.malloc ∷ calls.realloc ∷ [])) one_to_five ≡ exits 0x01050403 }
    ensures refused_makes_none { plain (calls_first calls.malloc (int 67108865 ∷ []) (sets 2 (call calls.malloc (int 4 ∷ [])) ∷ returns_word_at 2)) one_to_five ≡ exits 0x04030201 }
    ensures read_after_free { plain (freed (returns_word_at 1)) defaults ≡ trapped trap.BadAddress 3 }
{}

/// The externals that copy, set and compare bytes, and the intrinsics.
pub fn bytes()
    ensures memcpy { plain (calls_on_four_bytes calls.memcpy (local 2 ∷ local 1 ∷ int 3 ∷ [])) defaults ≡ exits 0x03020101 }
    ensures memcpy_past_the_end { plain (calls_on_four_bytes calls.memcpy (local 2 ∷ local 1 ∷ int 4 ∷ [])) defaults ≡ trapped trap.BadAddress 4 }
    ensures memcpy_of_nothing { plain (calls_first calls.memcpy (operand.Null ∷ operand.Null ∷ int 0 ∷ []) (returns_is_null 1)) defaults ≡ exits 1 }
    ensures memmove { plain (calls_on_four_bytes calls.memmove (local 1 ∷ local 2 ∷ int 3 ∷ [])) defaults ≡ exits 0x04040302 }
    ensures memset { plain (calls_on_four_bytes calls.memset (local 1 ∷ int 0x141 ∷ int 3 ∷ [])) defaults ≡ exits 0x04414141 }
    ensures memcmp_below { plain (calls_on_two_bytes 97 98 calls.memcmp (local 1 ∷ local 2 ∷ int 1 ∷ []) (returns 3)) defaults ≡ exits 4294967295 }
    ensures memcmp_above { plain (calls_on_two_bytes 200 98 calls.memcmp (local 1 ∷ local 2 ∷ int 1 ∷ []) (returns 3)) defaults ≡ exits 1 }
    ensures memcmp_equal { plain (calls_on_two_bytes 97 98 calls.memcmp (local 1 ∷ local 1 ∷ int 2 ∷ []) (returns 3)) defaults ≡ exits 0 }
    ensures strlen { plain (calls_on_two_bytes 65 0 calls.strlen (local 1 ∷ []) (returns_low 3)) defaults ≡ exits 1 }
    ensures strlen_without_end { plain (calls_on_two_bytes 65 66 calls.strlen (local 1 ∷ []) (returns_low 3)) defaults ≡ trapped trap.BadAddress 5 }
    ensures llvm_memcpy { plain (calls_on_four_bytes calls.llvm_memcpy (local 2 ∷ local 1 ∷ int 3 ∷ int 0 ∷ [])) defaults ≡ exits 0x03020101 }
    ensures llvm_memmove { plain (calls_on_four_bytes calls.llvm_memmove (local 1 ∷ local 2 ∷ int 3 ∷ int 0 ∷ [])) defaults ≡ exits 0x04040302 }
    ensures llvm_memset { plain (calls_on_four_bytes calls.llvm_memset (local 1 ∷ int 1 ∷ int 4 ∷ int 0 ∷ [])) defaults ≡ exits 0x01010101 }
    ensures lifetime_start { plain (made_anew 4) one_to_five ≡ exits 0x03020105 }
    ensures lifetime_start_past_the_end { plain (made_anew 5) defaults ≡ trapped trap.BadAddress 3 }
    ensures lifetime_end { plain (calls_first calls.lifetime_end (int 99 ∷ operand.Null ∷ []) (does (ret (int 3)) ∷ [])) defaults ≡ exits 3 }
{}

/// The externals of input, output and the end of a run.
pub fn input_and_output()
    ensures putchar { plain (calls_first calls.putchar (int 0x141 ∷ []) (returns 1)) defaults ≡ prints (0x41 ∷ []) («end».Exit 0x41) }
    ensures puts { plain (calls_on_two_bytes 72 0 calls.puts (local 1 ∷ []) (returns 3)) defaults ≡ prints (72 ∷ 10 ∷ []) («end».Exit 1) }
    ensures puts_without_end { plain (calls_on_two_bytes 72 72 calls.puts (local 1 ∷ []) (returns 3)) defaults ≡ trapped trap.BadAddress 5 }
    ensures getchar { plain (calls_first calls.getchar [] (returns 1)) (fed (7 ∷ [])) ≡ exits 7 }
    ensures getchar_at_the_end { plain (calls_first calls.getchar [] (returns 1)) defaults ≡ exits 4294967295 }
    ensures read { plain (calls_on_word calls.read (int 0 ∷ local 1 ∷ int 4 ∷ []) (returns_word_at 1)) (fed (97 ∷ 98 ∷ 99 ∷ [])) ≡ exits 0xa5636261 }
    ensures read_twice { plain reads_twice (fed (97 ∷ 98 ∷ 99 ∷ [])) ≡ exits 3 }
    ensures read_of_another { plain (calls_on_word calls.read (int 3 ∷ local 1 ∷ int 4 ∷ []) (returns_low 2)) (fed (97 ∷ [])) ≡ exits 4294967295 }
    ensures read_of_another_past_the_end { plain (calls_on_word calls.read (int 3 ∷ local 1 ∷ int 5 ∷ []) (returns_low 2)) defaults ≡ trapped trap.BadAddress 2 }
    ensures write { plain (calls_on_two_bytes 65 66 calls.write (int 1 ∷ local 1 ∷ int 2 ∷ []) (returns_low 3)) defaults ≡ prints (65 ∷ 66 ∷ []) («end».Exit 2) }
    ensures write_to_another { plain (calls_on_two_bytes 65 66 calls.write (int 2 ∷ local 1 ∷ int 2 ∷ []) (returns_low 3)) defaults ≡ exits 4294967295 }
    ensures write_to_another_past_the_end { plain (calls_on_two_bytes 65 66 calls.write (int 2 ∷ local 1 ∷ int 3 ∷ []) (returns_low 3)) defaults ≡ trapped trap.BadAddress 5 }
    ensures exit { plain (calls_first calls.exit (int 9 ∷ []) unreachable) defaults ≡ exits 9 }
    ensures abort { plain (calls_first calls.abort [] unreachable) defaults ≡ trapped trap.Abort 1 }
    ensures unreachable { plain (main_of unreachable []) defaults ≡ trapped trap.Unreachable 1 }
{}

/// Printing stops where the limit of the output would be passed, and then nothing is printed.
pub fn output_ends()
    ensures at_the_limit { (world : World) → length world.output ≡ 1048575
        → printed 1 (65 ∷ []) (Gives 65) world ≡ Gives 65 (record world { output = world.output ++ 65 ∷ [] }) }
    ensures past_the_limit { (world : World) → length world.output ≡ 1048576 → printed 1 (65 ∷ []) (Gives 65) world ≡ traps trap.Output 1 world }
    ensures past_the_limit_by_two { (world : World) → length world.output ≡ 1048575 → printed 1 (65 ∷ 66 ∷ []) (Gives 2) world ≡ traps trap.Output 1 world }
{}

/// Jumps, calls, the stack, and words and globals in memory. `with_globals` has three globals, among them `a` and `u`, and returns
/// the word at an address.
pub fn control_and_memory()
    ensures first_case { plain (chooses 1) defaults ≡ exits 20 }
    ensures second_case { plain (chooses 2) defaults ≡ exits 30 }
    ensures other_case { plain (chooses 3) defaults ≡ exits 10 }
    ensures phis_read_at_once { plain swaps defaults ≡ exits 33 }
    ensures room_is_taken_back { plain takes_room_back defaults ≡ exits 0 }
    ensures room_of_a_callee { plain reads_room_of_callee defaults ≡ trapped trap.BadAddress 4 }
    ensures stack_to_the_limit { plain (main_of (sets 1 (alloca (array 1048576 i8)) ∷ does (ret (int 0)) ∷ []) []) defaults ≡ exits 0 }
    ensures stack_past_the_limit { plain (main_of (sets 1 (op.Alloca i8 i64 (int 1048577)) ∷ does (ret (int 0)) ∷ []) []) defaults ≡ trapped trap.Stack 1 }
    ensures frames_to_the_limit { called_above 1022 ≡ On (entered plain_reading (recursion 1) 0 [] recursion_world ∷ frame_at_call ∷ frames_at_call 1022) recursion_world }
    ensures frames_past_the_limit { called_above 1023 ≡ Over («end».Trap trap.Depth 5) recursion_world }
    ensures odd_width { plain odd_width defaults ≡ exits 0x1abcd }
    ensures negative_index { plain steps_back defaults ≡ exits 7 }
    ensures two_allocations { plain reads_across defaults ≡ trapped trap.BadAddress 4 }
    ensures part_of_a_global { plain (with_globals inner_word) defaults ≡ exits 0x01020304 }
    ensures undef_in_a_global { plain (with_globals (operand.Global (name (codes "u")))) defaults ≡ exits 0 }
    ensures next_global { plain (with_globals (operand.Offset (name (codes "a")) ((i8, (i64, 36) ∷ []) ∷ []))) defaults ≡ trapped trap.BadAddress 1 }
{}

/// The runtime functions, each in marked calls where eight zero bytes stand on the heap (`on_heap`): `poisons from to origin`
/// poisons those from one number to below another, `looks` checks all eight, as kind 9 at site 77. A report has site, kind, part,
/// mask, width and origin.
pub fn runtime_functions()
    ensures check { plain (on_heap (checks (int 6) 3 (int 4) ∷ [])) defaults ≡ reported (report_unknown 3 1 0 6 3 4) }
    ensures check_of_nothing { plain (on_heap (checks (int 0) 3 (int 4) ∷ [])) defaults ≡ exits 0 }
    ensures check_memory { plain (on_heap (poisons 5 7 4 ∷ looks ∷ [])) defaults ≡ reported (report_unknown 77 9 5 255 8 4) }
    ensures check_memory_of_clean { plain (on_heap (looks ∷ [])) defaults ≡ exits 0 }
    ensures check_string { plain (on_heap (poisons 0 1 4 ∷ looks_at_string ∷ [])) defaults ≡ reported (report_unknown 6 10 0 255 8 4) }
    ensures check_string_to_its_end { plain (on_heap (poisons 1 8 4 ∷ looks_at_string ∷ [])) defaults ≡ exits 0 }
    ensures blind { plain (on_heap (inserts_call calls.msan_blind (int 0 ∷ []) ∷ inserts_call calls.msan_blind (int 2 ∷ []) ∷ [])) defaults ≡ counted 1 }
    ensures poison_of_nothing { plain (on_heap (poisons 5 5 4 ∷ looks ∷ [])) defaults ≡ exits 0 }
    ensures unpoison { plain (on_heap (poisons 5 7 4 ∷ unpoisons 6 ∷ looks ∷ [])) defaults ≡ reported (report_unknown 77 9 6 255 8 4) }
    ensures copy { plain (on_heap (poisons 0 1 4 ∷ (copies_up 2 ++ unpoisons 4 ∷ looks ∷ []))) defaults ≡ reported (report_unknown 77 9 4 255 8 4) }
    ensures fill { plain (on_heap (fills 3 0x1f0 7 ∷ looks ∷ [])) defaults ≡ reported (report_unknown 77 9 0 0xf0 8 7) }
    ensures fill_with_clean { plain (on_heap (poisons 0 3 4 ∷ fills 3 0x100 7 ∷ looks ∷ [])) defaults ≡ exits 0 }
    ensures store_origin { plain (on_heap (poisons 3 8 9 ∷ stores_origin 0xff0000000000 7 ∷ unpoisons 4 ∷ looks ∷ [])) defaults ≡ reported (report_unknown 77 9 4 255 8 7) }
    ensures store_origin_elsewhere { plain (on_heap (poisons 3 8 9 ∷ stores_origin 0xff0000000000 7 ∷ looks ∷ [])) defaults ≡ reported (report_unknown 77 9 3 255 8 9) }
    ensures load_origin { plain (on_heap (poisons 4 8 9 ∷ checks_loaded_origin 0xff0000000000)) defaults ≡ reported (report_unknown 3 1 0 1 1 9) }
    ensures size { plain (on_heap (checks_size (local 1))) defaults ≡ reported (report_unknown 3 1 0 8 64 0) }
    ensures size_of_no_block { plain (on_heap (checks_size operand.Null)) defaults ≡ exits 0 }
    ensures bad_ranges { plain (on_heap (bad_ranges ++ looks ∷ [])) defaults ≡ exits 0 }
{}

/// Marked instructions: which shadow, memory and slots they reach, that they are no steps, and whole modules with masks and checks.
pub fn marks()
    ensures shadow_is_loaded { plain (on_heap (poisons 1 2 4 ∷ checks_loaded_shadow)) defaults ≡ reported (report_unknown 3 1 0 0xff00 16 4) }
    ensures shadow_is_stored { plain (on_heap (shadow_address ++ marked (op.Store i8 (int 0x0f) (inserted (codes "3"))) ∷ looks ∷ [])) defaults ≡ reported (report_unknown 77 9 0 0x0f 8 0) }
    ensures memory_is_not_loaded { plain (on_heap (inserts (codes "1") (op.Load i8 (local 1)) ∷ [])) defaults ≡ trapped trap.BadAddress 2 }
    ensures memory_is_not_stored { plain (on_heap (marked (op.Store i8 (int 1) (local 1)) ∷ [])) defaults ≡ trapped trap.BadAddress 2 }
    ensures slot_is_loaded { plain (with_slots (marked (op.Store i64 (int 0x1234) (mask_slot 99)) ∷ checks_slot (mask_slot 99))) defaults ≡ reported (report_unknown 3 1 0 0x1234 64 4) }
    ensures slot_is_zero_first { plain (with_slots (checks_slot result_mask)) defaults ≡ exits 0 }
    ensures past_the_slots { plain (with_slots (inserts (codes "1") (op.Load i64 (mask_slot 100)) ∷ [])) defaults ≡ trapped trap.BadAddress 1 }
    ensures unmarked_store_to_a_slot { plain (with_slots (does (op.Store i32 (int 1) result_mask) ∷ [])) defaults ≡ trapped trap.BadAddress 1 }
    ensures marked_are_no_steps { plain (on_heap (poisons 5 7 4 ∷ poisons 0 1 4 ∷ unpoisons 8 ∷ looks ∷ [])) (steps 2) ≡ exits 0 }
    ensures spent_before_marked { plain (on_heap (poisons 5 7 4 ∷ looks ∷ [])) (steps 1) ≡ spent }
    ensures branch_on_unset_checked { plain branch_on_unset_checked defaults ≡ reported (report 4 1 0 1 1 1) }
    ensures branch_on_unset_spent { plain branch_on_unset_checked (steps 3) ≡ spent }
    ensures branch_on_unset_stripped { strip branch_on_unset_checked ≡ branch_on_unset }
    ensures nested_call_checked { plain nested_call_checked defaults ≡ reported (report 4 8 0 0xffffffff 32 1) }
    ensures nested_call_stripped { strip nested_call_checked ≡ nested_call }
{}

/// Operations on words: results, traps, and which trap comes first.
pub fn words()
    ensures add { binary_of binary.Add no_flags 8 200 100 ≡ Ok 44 }
    ensures add_both_flags { binary_of binary.Add (record no_flags { nuw = true; nsw = true }) 8 128 128 ≡ Err trap.Nuw }
    ensures add_signed { binary_of binary.Add (record no_flags { nsw = true }) 8 100 100 ≡ Err trap.Nsw }
    ensures sub { binary_of binary.Sub no_flags 8 3 5 ≡ Ok 254 }
    ensures sub_unsigned { binary_of binary.Sub (record no_flags { nuw = true }) 8 3 5 ≡ Err trap.Nuw }
    ensures sub_signed { binary_of binary.Sub (record no_flags { nsw = true }) 8 128 1 ≡ Err trap.Nsw }
    ensures mul { binary_of binary.Mul no_flags 8 200 3 ≡ Ok 88 }
    ensures mul_unsigned { binary_of binary.Mul (record no_flags { nuw = true }) 8 200 3 ≡ Err trap.Nuw }
    ensures mul_signed { binary_of binary.Mul (record no_flags { nsw = true }) 8 255 128 ≡ Err trap.Nsw }
    ensures shl_by_the_width { binary_of binary.Shl (record no_flags { nuw = true }) 8 1 8 ≡ Err trap.Shift }
    ensures shl_unsigned { binary_of binary.Shl (record no_flags { nuw = true }) 8 0x80 1 ≡ Err trap.Nuw }
    ensures shl_signed { binary_of binary.Shl (record no_flags { nsw = true }) 8 0x40 1 ≡ Err trap.Nsw }
    ensures shl_signed_fits { binary_of binary.Shl (record no_flags { nsw = true }) 8 0xc0 1 ≡ Ok 0x80 }
    ensures udiv_by_zero { binary_of binary.Udiv no_flags 8 1 0 ≡ Err trap.ZeroDivisor }
    ensures udiv_exact { binary_of binary.Udiv (record no_flags { exact = true }) 8 7 2 ≡ Err trap.Exact }
    ensures sdiv { binary_of binary.Sdiv no_flags 8 249 2 ≡ Ok 253 }
    ensures sdiv_overflow { binary_of binary.Sdiv no_flags 8 128 255 ≡ Err trap.Overflow }
    ensures sdiv_of_one_bit { binary_of binary.Sdiv no_flags 1 1 1 ≡ Err trap.Overflow }
    ensures sdiv_of_zero_by_one_bit { binary_of binary.Sdiv no_flags 1 0 1 ≡ Ok 0 }
    ensures sdiv_exact { binary_of binary.Sdiv (record no_flags { exact = true }) 8 249 2 ≡ Err trap.Exact }
    ensures urem { binary_of binary.Urem no_flags 8 249 4 ≡ Ok 1 }
    ensures srem { binary_of binary.Srem no_flags 8 249 2 ≡ Ok 255 }
    ensures srem_overflow { binary_of binary.Srem no_flags 8 128 255 ≡ Err trap.Overflow }
    ensures lshr { binary_of binary.Lshr no_flags 8 0x81 1 ≡ Ok 0x40 }
    ensures ashr { binary_of binary.Ashr no_flags 8 0x81 1 ≡ Ok 0xc0 }
    ensures ashr_exact { binary_of binary.Ashr (record no_flags { exact = true }) 8 3 1 ≡ Err trap.Exact }
    ensures or_disjoint { binary_of binary.Or (record no_flags { disjoint = true }) 8 1 1 ≡ Err trap.Disjoint }
    ensures trunc_both_flags { cast_of cast.Trunc (record no_flags { nuw = true; nsw = true }) 16 256 8 ≡ Err trap.Nuw }
    ensures trunc_signed { cast_of cast.Trunc (record no_flags { nsw = true }) 16 255 8 ≡ Err trap.Nsw }
    ensures trunc_signed_fits { cast_of cast.Trunc (record no_flags { nsw = true }) 16 0xff80 8 ≡ Ok 0x80 }
    ensures zext_negative { cast_of cast.Zext (record no_flags { nneg = true }) 8 0xff 16 ≡ Err trap.Nneg }
    ensures sext { cast_of cast.Sext no_flags 8 0x80 16 ≡ Ok 0xff80 }
    ensures icmp_signs { compare_of predicate.Eq (record no_flags { samesign = true }) 8 255 1 ≡ Err trap.Samesign }
    ensures icmp_signed { compare_of predicate.Slt no_flags 8 0x80 0 ≡ Ok true }
    ensures icmp_unsigned { compare_of predicate.Ult no_flags 8 0x80 0 ≡ Ok false }
    ensures undefined_word { undef_word_of (0xa5 ∷ 1 ∷ []) 12 ≡ 0x1a5 }
{}

/// Sizes of types, copies of shadow and origins, and the numbers of sites and roots.
pub fn layout_and_numbers()
    ensures loose_struct { size_of [] (struct_of_three false i8 i32 i8) ≡ Some 12 }
    ensures packed_struct { size_of [] (struct_of_three true i8 i32 i8) ≡ Some 6 }
    ensures array_of_odd_width { size_of [] (array 2 (ty.Int 24)) ≡ Some 8 }
    ensures empty_array { size_of [] (array 0 i64) ≡ Some 0 }
    ensures greatest_size { size_of [] (array 67108864 i8) ≡ Some 67108864 }
    ensures past_the_greatest_size { size_of [] (array 67108865 i8) ≡ None }
    ensures holds_itself { size_of ((name (codes "T"), struct_of_three false i8 (ty.Named (name (codes "T"))) i8) ∷ []) (ty.Named (name (codes "T"))) ≡ None }
    ensures shadow_is_copied { bytes_at (copied (λ a. get_or (0 ∷ 0 ∷ 0 ∷ 0xff ∷ []) a 0) 1 0 7) 0 8 ≡ 0 ∷ 0 ∷ 0 ∷ 0 ∷ 0xff ∷ 0 ∷ 0 ∷ 0 ∷ [] }
    ensures cells_are_copied { bytes_at (copied_cells (λ a. get_or (0 ∷ 0 ∷ 0 ∷ 0xff ∷ []) a 0) (λ c. get_or (5 ∷ 6 ∷ []) c 0) 1 0 7 (λ c. get_or (5 ∷ 6 ∷ []) c 0)) 0 2 ≡ 5 ∷ 5 ∷ [] }
    ensures site_of_a_call { site_at (recursion 1) 0 2 1 ≡ 5 }
    ensures roots { count_roots three_branches ≡ 3 }
    ensures roots_of_marked { count_roots branch_on_unset_checked ≡ 1 }
    ensures roots_of_own_malloc { count_roots own_malloc ≡ 0 }
    ensures root_of_the_second { root_at (setting_of shared_cell defaults).func shared_cell 0 0 1 ≡ 1 }
{}
