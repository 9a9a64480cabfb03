//! Which modules are formed, which values are clean, and what is declared how: laws about the definitions, computed by the
//! prover. The values are worked out by hand from what docs/DEFINITIONS.md says. `sets n` and `does` are instructions with
//! result n and without one, `ends` is the end of `main`.
ghost use Rattle.std.specs.Prelude.{◌≡◌, ◌^◌, ◌++◌, [], ◌∷◌, codes, length, map, take, true, false, Some, None};
ghost use Rattle.ms_bits.specs.declared.operations.BinOp.TheVariants as binary;
ghost use Rattle.ms_bits.specs.declared.operations.CastOp.TheVariants as cast;
ghost use Rattle.ms_bits.specs.declared.operations.Pred.TheVariants as predicate;
ghost use Rattle.ms_bits.specs.declared.word_functions.WordFn.TheVariants as word;
ghost use Rattle.ms_bits.specs.declared.word_functions.WordWidth.TheVariants as width;
ghost use Rattle.ms_ir.specs.declared.calls.External.TheVariants as external;
ghost use Rattle.ms_ir.specs.declared.syntax.Init as initial;
ghost use Rattle.ms_ir.specs.declared.syntax.Name.TheVariants.{Number, Text};
ghost use Rattle.ms_ir.specs.Builders.{i1, i8, i32, i64, array, int, local, undef, sets, does, binary as combine, alloca, name, main_func, main_of, block};
ghost use Rattle.ms_ir.specs.{Layout.{size_of}, Names.{externals, lookup, slots}};
ghost use Rattle.ms_ir.specs.Signatures.{external_declarations, external_signature, runtime_declarations, slot_globals};
ghost use Rattle.ms_ir.specs.declared.syntax.Op.TheVariants as op;
ghost use Rattle.ms_ir.specs.declared.syntax.Operand.TheVariants as operand;
ghost use Rattle.ms_ir.specs.declared.syntax.Ty as ty;
ghost use Rattle.ms_ir.specs.Declarations as calls;
ghost use Rattle.ms_runs_examples.specs.Marks as marks;
ghost use Rattle.ms_runs_examples.specs.Programs.{branch_on_unset, clang_unoptimised, recursion, select_undef, undef_divisor};
ghost use Rattle.ms_runs_examples.specs.Setups.{counted, exits, report, reported};
ghost use Rattle.ms_runs.specs.Verdict.{verdict_of, Poisoned, Unsure, Clean};
ghost use Rattle.ms_bits.specs.NoFlags.{no_flags};
ghost use Rattle.ms_check_valid.specs.CleanValues.{makes_clean, IsClean};
ghost use Rattle.ms_runs_examples.specs.Faults.{ends, at_global, calls_void, global_of, joins, first_func, word_and_byte};
ghost use Rattle.ms_check_valid.specs.Formed.{named_type_formed, global_formed, decl_formed, func_formed};
ghost use Rattle.ms_check_valid.specs.FormedCode.{type_formed, operand_formed, inst_formed, is_body};
ghost use Rattle.ms_check_valid.specs.FormedNames.{is_local_name, is_global_name, are_numbered};
ghost use Rattle.ms_check_valid.specs.{ReadLimits.{ReadLimits, type_depth}, Uninstrumented.{names_are_free}};

/// Names, and the numbers among them.
#[tactic(auto, unfolding(ms_ir::specs::Names::bit_moves))]
pub fn names_are_formed()
    ensures number { is_local_name (Number 4294967295) ≡ true }
    ensures large_number { is_local_name (Number 4294967296) ≡ false }
    ensures inserted { is_local_name (name (codes "__msan.17")) ≡ true }
    ensures inserted_without_number { is_local_name (name (codes "__msan.")) ≡ false }
    ensures runtime_as_local { is_local_name (name (codes "__msan_check")) ≡ false }
    ensures runtime { is_global_name (name (codes "__msan_check")) ≡ true }
    ensures slot { is_global_name (name (codes "__msan_retval_tls")) ≡ true }
    ensures inserted_as_global { is_global_name (name (codes "__msan.17")) ≡ false }
    ensures global_with_a_number { is_global_name (Number 0) ≡ false }
    ensures successive { are_numbered (Number 0 ∷ name (codes "x") ∷ Number 1 ∷ Number 2 ∷ []) ≡ true }
    ensures first_is_zero { are_numbered (Number 1 ∷ []) ≡ false }
    ensures gap { are_numbered (Number 0 ∷ Number 2 ∷ []) ≡ false }
{}

/// Types, operands and initialisers.
pub fn types_are_formed()
    ensures widest { type_formed i64 ≡ true }
    ensures too_wide { type_formed (ty.Int 65) ≡ false }
    ensures no_bits { type_formed (array 2 (ty.Int 0)) ≡ false }
    ensures greatest_constant { operand_formed i8 (int 255) ≡ true }
    ensures too_large_a_constant { operand_formed i8 (int 256) ≡ false }
    ensures number_after_a_pointer { operand_formed ty.Ptr (int 0) ≡ false }
    ensures null_after_a_word { operand_formed i64 operand.Null ≡ false }
    ensures undefined { operand_formed i64 operand.Poison ≡ true }
    ensures global_after_a_word { operand_formed i64 (at_global (codes "g")) ≡ true }
    ensures large_index { operand_formed ty.Ptr (operand.Offset (name (codes "g")) ((i8, (i8, 256) ∷ []) ∷ [])) ≡ false }
    ensures named_type { named_type_formed (name (codes "t"), word_and_byte) ≡ true }
    ensures named_word { named_type_formed (name (codes "t"), i8) ≡ false }
    ensures local_in_an_initialiser { global_formed (global_of (codes "g") i8 (initial.Value (local 0))) ≡ false }
    ensures number_of_an_array { global_formed (global_of (codes "g") (array 2 i8) (initial.Value (int 0))) ≡ false }
    ensures undefined_array { global_formed (global_of (codes "g") (array 2 i8) (initial.Value undef)) ≡ true }
    ensures parameter_in_memory { decl_formed (record calls.putchar { params = array 1 i8 ∷ [] }) ≡ false }
{}

/// Instructions and their flags.
pub fn instructions_are_formed()
    ensures flags { inst_formed (sets 1 (op.Binary binary.Add (record no_flags { nuw = true; nsw = true }) i8 (int 0) (int 0))) ≡ true }
    ensures flag_of_another { inst_formed (sets 1 (op.Binary binary.And (record no_flags { nsw = true }) i8 (int 0) (int 0))) ≡ false }
    ensures exact_remainder { inst_formed (sets 1 (op.Binary binary.Urem (record no_flags { exact = true }) i8 (int 0) (int 0))) ≡ false }
    ensures disjoint_or { inst_formed (sets 1 (op.Binary binary.Or (record no_flags { disjoint = true }) i8 (int 0) (int 0))) ≡ true }
    ensures trunc_nsw { inst_formed (sets 1 (op.Cast cast.Trunc (record no_flags { nsw = true }) i8 (int 0) i1)) ≡ true }
    ensures sext_nneg { inst_formed (sets 1 (op.Cast cast.Sext (record no_flags { nneg = true }) i8 (int 0) i64)) ≡ false }
    ensures samesign { inst_formed (sets 1 (op.Icmp predicate.Eq (record no_flags { samesign = true }) i8 (int 0) (int 0))) ≡ true }
    ensures sum_of_pointers { inst_formed (sets 1 (combine binary.Add ty.Ptr operand.Null operand.Null)) ≡ false }
    ensures load_of_an_array { inst_formed (sets 1 (op.Load (array 1 i8) operand.Null)) ≡ false }
    ensures phi_without_edges { inst_formed (sets 1 (op.Phi i8 [])) ≡ false }
    ensures store_with_a_name { inst_formed (sets 1 (op.Store i8 (int 0) operand.Null)) ≡ false }
    ensures sum_without_a_name { inst_formed (does (combine binary.Add i8 (int 0) (int 0))) ≡ false }
    ensures call_of_main { inst_formed (calls_void (codes "main") []) ≡ false }
    ensures large_case { inst_formed (does (op.Switch i8 (int 0) (Number 0) ((256, Number 0) ∷ []))) ≡ false }
{}

/// Blocks and functions.
pub fn bodies_are_formed()
    ensures terminator { is_body ends ≡ true }
    ensures no_instruction { is_body [] ≡ false }
    ensures no_terminator { is_body (sets 1 (alloca i8) ∷ []) ≡ false }
    ensures two_terminators { is_body (ends ++ ends) ≡ false }
    ensures phi_after_another { is_body (sets 1 (alloca i8) ∷ sets 2 (op.Phi i8 ((int 0, Number 0) ∷ [])) ∷ ends) ≡ false }
    ensures phis_first { is_body (sets 1 (op.Phi i8 ((int 0, Number 0) ∷ [])) ∷ sets 2 (alloca i8) ∷ ends) ≡ true }
    ensures no_block { func_formed (main_func []) ≡ false }
    ensures result_that_is_not_next { func_formed (main_func (block 0 (sets 2 (alloca i8) ∷ ends) ∷ [])) ≡ false }
{}

/// The externals, the runtime functions and the slots as example modules declare them.
pub fn declarations_fit()
    ensures externals { take 22 external_declarations ≡ calls.malloc ∷ calls.calloc ∷ calls.realloc ∷ calls.free ∷ calls.memcpy ∷ calls.memmove ∷ calls.memset ∷ calls.memcmp ∷ calls.strlen ∷ calls.putchar ∷ calls.puts ∷ calls.getchar ∷ calls.read ∷ calls.write ∷ calls.exit ∷ calls.abort ∷ calls.llvm_memcpy ∷ calls.llvm_memmove ∷ calls.llvm_memset ∷ calls.lifetime_start ∷ calls.lifetime_end ∷ calls.printf ∷ [] }
    ensures functions_of_words { length external_declarations ≡ 95 }
    ensures ones_of_a_word { lookup externals (name (codes "llvm.ctpop.i32")) ≡ Some (external.Word word.Ctpop width.I32) }
    ensures zeros_of_a_word { external_signature (external.Word word.Ctlz width.I64) ≡ record { ret = Some i64; params = i64 ∷ i1 ∷ [] } }
    ensures bytes_of_one_byte { lookup externals (name (codes "llvm.bswap.i8")) ≡ None }
    ensures runtime_functions { runtime_declarations ≡ calls.msan_check ∷ calls.msan_check_memory ∷ calls.msan_check_string ∷ calls.msan_blind ∷ calls.msan_poison ∷ calls.msan_unpoison ∷ calls.msan_copy ∷ calls.msan_fill ∷ calls.msan_store_origin ∷ calls.msan_load_origin ∷ calls.msan_size ∷ calls.msan_thread_result ∷ calls.msan_check_format ∷ [] }
    ensures slots { slot_globals ≡ marks.slot_globals }
    ensures names_of_slots { map (λ g. g.name) slot_globals ≡ map (λ s. s.0) slots }
    ensures sizes_of_slots { map (λ g. size_of [] g.ty) slot_globals ≡ map (λ s. Some s.1.1) slots }
{}

/// Clean values: room on the stack is one, and what is loaded from it isn't. Of a division the dividend alone counts.
pub fn clean_values()
    ensures room { IsClean branch_on_unset (first_func branch_on_unset) (Number 1) }
    ensures loaded { ¬ IsClean branch_on_unset (first_func branch_on_unset) (Number 2) }
    ensures compared { ¬ IsClean branch_on_unset (first_func branch_on_unset) (Number 3) }
    ensures undefined_condition { makes_clean select_undef (λ x. true) (op.Select undef i32 (int 6) (int 4)) ≡ false }
    ensures undefined_divisor { makes_clean undef_divisor (λ x. false) (combine binary.Udiv i32 (int 8) undef) ≡ true }
    ensures undefined_dividend { makes_clean undef_divisor (λ x. false) (combine binary.Udiv i32 undef (int 8)) ≡ false }
    ensures undefined_addend { makes_clean undef_divisor (λ x. false) (combine binary.Add i32 (int 8) undef) ≡ false }
    ensures call_of_a_function { makes_clean (recursion 3) (λ x. true) (op.Call (Some i32) (name (codes "f")) ((i32, int 1) ∷ [])) ≡ false }
    ensures call_of_an_external { makes_clean (recursion 3) (λ x. false) (op.Call (Some i32) (name (codes "getchar")) []) ≡ true }
    ensures phi_with_an_undefined_edge { makes_clean (joins []) (λ x. true) (op.Phi i32 ((int 0, Number 3) ∷ (undef, Number 4) ∷ [])) ≡ false }
    ensures frozen { makes_clean (joins []) (λ x. false) (op.Freeze i32 undef) ≡ true }
{}

/// Reserved names, and the limits of a text.
pub fn limits_are_kept()
    ensures free { names_are_free clang_unoptimised ≡ true }
    ensures reserved_calls { names_are_free marks.branch_on_unset_checked ≡ false }
    ensures reserved_slots { names_are_free (marks.with_slots []) ≡ false }
    ensures reserved_label { names_are_free (main_of (does (op.Br (name (codes "__msan.1"))) ∷ []) []) ≡ false }
    ensures clang_unoptimised { ReadLimits 32 clang_unoptimised }
    ensures few_instructions { ¬ ReadLimits 31 clang_unoptimised }
    ensures deepest_type { type_depth (array 2 (array 2 word_and_byte)) ≡ 3 }
{}

/// Verdicts.
pub fn verdicts()
    ensures clean { verdict_of (exits 0) ≡ Clean }
    ensures unsure { verdict_of (counted 1) ≡ Unsure }
    ensures poisoned { verdict_of (record (reported (report 4 1 0 1 1 1)) { blind = 1 }) ≡ Poisoned }
{}
