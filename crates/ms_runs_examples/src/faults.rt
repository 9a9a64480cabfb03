//! What each clause finds at fault, and where: laws about the definitions, computed by the prover. The values are worked out by
//! hand from what docs/DEFINITIONS.md says. `body` is a module of a `main` with these instructions that returns 0, `sets n` and
//! `does` are instructions with result n and without one; `percent` and `symbol` spell names with `%` and `@`.
ghost use Rattle.std.specs.Prelude.{◌≡◌, [], ◌∷◌, ◌++◌, codes, true, false, Some, None};
ghost use Rattle.ms_bits.specs.declared.operations.BinOp.TheVariants as binary;
ghost use Rattle.ms_bits.specs.declared.operations.CastOp.TheVariants as cast;
ghost use Rattle.ms_ir.specs.declared.syntax.Init as initial;
ghost use Rattle.ms_ir.specs.declared.syntax.Name.TheVariants.{Number, Text};
ghost use Rattle.ms_ir.specs.Declarations.{malloc, putchar, llvm_memcpy, msan_check};
ghost use Rattle.ms_ir.specs.Builders.{i1, i8, i16, i32, i64, array, local, int, undef, sets, does, binary as combine, convert, alloca, call, declares, block, module_of, main_of, main_blocks, name};
ghost use Rattle.ms_ir.specs.declared.syntax.Op.TheVariants as op;
ghost use Rattle.ms_ir.specs.declared.syntax.Operand.TheVariants as operand;
ghost use Rattle.ms_ir.specs.declared.syntax.Ty as ty;
ghost use Rattle.ms_runs_examples.specs.{Externals.{own_malloc}, Programs.{recursion}};
ghost use Rattle.ms_runs_examples.specs.Faults.{symbol, percent, with_globals, global_of, ends, body, body_with, with_types, with_func, with_empty_func, calls_void, binds, binds_marked, does_marked, at_global, at_local, word_and_byte, part_of, joins, joins_twice, endless};
ghost use Rattle.ms_check_valid.specs.{NamesOnce.{duplicates}, NamesKnown.{unknowns}, TypesAgree.{mismatches}};
ghost use Rattle.ms_check_valid.specs.{PhisFit.{bad_edges}, HasMain.{defines_main}, ExternalsFit.{bad_externals}};
ghost use Rattle.ms_check_valid.specs.{MarksFit.{bad_marks}, SizesFit.{unsized}};

/// Names that are defined twice. Values and blocks of a function share names, and so do all that is spelled with `@`.
pub fn names_twice()
    ensures named_type { duplicates (with_types ((name (codes "t"), word_and_byte) ∷ (name (codes "t"), word_and_byte) ∷ []) (body [])) ≡ percent (name (codes "t")) ∷ [] }
    ensures result { duplicates (body (sets 1 (alloca i8) ∷ sets 1 (alloca i8) ∷ [])) ≡ percent (Number 1) ∷ [] }
    ensures block { duplicates (main_blocks (block 0 (sets 0 (alloca i8) ∷ ends) ∷ []) []) ≡ percent (Number 0) ∷ [] }
    ensures parameter { duplicates (with_empty_func (codes "f") ((i8, Number 0) ∷ (i8, Number 0) ∷ []) (body [])) ≡ percent (Number 0) ∷ [] }
    ensures global_and_function { duplicates (with_globals (global_of (codes "main") i8 initial.Zero ∷ []) ends) ≡ symbol (codes "main") ∷ [] }
    ensures declaration { duplicates (body_with (putchar ∷ malloc ∷ putchar ∷ []) []) ≡ symbol (codes "putchar") ∷ [] }
    ensures function_before_its_locals { duplicates (with_empty_func (codes "main") ((i8, Number 0) ∷ (i8, Number 0) ∷ []) (body [])) ≡ symbol (codes "main") ∷ percent (Number 0) ∷ [] }
    ensures of_two_functions { duplicates (recursion 3) ≡ [] }
{}

/// Names that are used and not defined, in written order: a type before operands, a callee before arguments, each of a
/// phi's values before its label.
pub fn names_unknown()
    ensures type_before_operand { unknowns (body (sets 1 (op.Alloca (ty.Named (name (codes "t"))) i32 (local 9)) ∷ [])) ≡ (1, percent (name (codes "t"))) ∷ (1, percent (Number 9)) ∷ [] }
    ensures callee_before_argument { unknowns (body (calls_void (codes "f") ((i32, local 9) ∷ []) ∷ [])) ≡ (1, symbol (codes "f")) ∷ (1, percent (Number 9)) ∷ [] }
    ensures value_before_label { unknowns (joins ((local 8, Number 9) ∷ (int 0, Number 2) ∷ [])) ≡ (4, percent (Number 8)) ∷ (4, percent (Number 9)) ∷ [] }
    ensures label { unknowns (main_of (does (op.Br (Number 7)) ∷ []) []) ≡ (1, percent (Number 7)) ∷ [] }
    ensures switch { unknowns (main_of (does (op.Switch i8 (local 5) (Number 6) ((0, Number 7) ∷ [])) ∷ []) []) ≡ (1, percent (Number 5)) ∷ (1, percent (Number 6)) ∷ (1, percent (Number 7)) ∷ [] }
    ensures constant_step { unknowns (body (does (op.Store i8 (int 0) (operand.Offset (name (codes "g")) ((ty.Named (name (codes "t")), []) ∷ []))) ∷ [])) ≡ (1, percent (name (codes "t"))) ∷ (1, symbol (codes "g")) ∷ [] }
    ensures initialiser { unknowns (with_globals (global_of (codes "g") ty.Ptr (initial.Value (at_global (codes "h"))) ∷ []) ends) ≡ (0, symbol (codes "h")) ∷ [] }
    ensures definition { unknowns (with_types ((name (codes "t"), array 2 (ty.Named (name (codes "u")))) ∷ []) (body [])) ≡ (0, percent (name (codes "u"))) ∷ [] }
    ensures local_of_another_function { unknowns (with_empty_func (codes "f") ((i8, name (codes "x")) ∷ []) (body (sets 1 (op.Freeze i8 (at_local (codes "x"))) ∷ []))) ≡ (1, percent (name (codes "x"))) ∷ [] }
    ensures function_as_value { unknowns (body (does (op.Store ty.Ptr (at_global (codes "main")) operand.Null) ∷ [])) ≡ [] }
{}

/// Operands of another type than the one that is asked for: the site and the operand's number from 0.
pub fn types_differ()
    ensures second_operand { mismatches (body (sets 1 (op.Freeze i64 (int 0)) ∷ sets 2 (combine binary.Add i32 (int 0) (local 1)) ∷ [])) ≡ (2, 1) ∷ [] }
    ensures address { mismatches (body (sets 1 (op.Freeze i64 (int 0)) ∷ does (op.Store i8 (int 0) (local 1)) ∷ [])) ≡ (2, 1) ∷ [] }
    ensures function_as_value { mismatches (body (does (op.Store ty.Ptr (at_global (codes "main")) operand.Null) ∷ [])) ≡ (1, 0) ∷ [] }
    ensures global_as_integer { mismatches (with_globals (global_of (codes "g") i8 initial.Zero ∷ []) (sets 1 (op.Freeze i64 (at_global (codes "g"))) ∷ ends)) ≡ (1, 0) ∷ [] }
    ensures block_as_value { mismatches (body (sets 1 (op.Freeze i8 (local 0)) ∷ [])) ≡ (1, 0) ∷ [] }
    ensures value_as_label { mismatches (main_of (sets 1 (op.Freeze i1 (int 0)) ∷ does (op.Br (Number 1)) ∷ []) []) ≡ (2, 0) ∷ [] }
    ensures condition { mismatches (main_blocks (block 0 (sets 1 (op.Freeze i8 (int 0)) ∷ does (op.CondBr (local 1) (Number 2) (Number 2)) ∷ []) ∷ block 2 ends ∷ []) []) ≡ (2, 0) ∷ [] }
    ensures selected { mismatches (body (sets 1 (op.Freeze i8 (int 0)) ∷ sets 2 (op.Select (int 1) i32 (int 0) (local 1)) ∷ [])) ≡ (2, 2) ∷ [] }
    ensures repeated_case { mismatches (main_blocks (block 0 (does (op.Switch i8 (int 0) (Number 1) ((3, Number 1) ∷ (3, Number 1) ∷ [])) ∷ []) ∷ block 1 ends ∷ []) []) ≡ (1, 0) ∷ [] }
    ensures returns_from_void { mismatches (with_func (codes "f") None [] (does (op.Ret (Some (i8, int 0))) ∷ []) (body [])) ≡ (2, 0) ∷ [] }
    ensures returns_nothing { mismatches (main_of (does (op.Ret None) ∷ []) []) ≡ (1, 0) ∷ [] }
{}

/// Casts between widths: `trunc` makes narrower, `zext` and `sext` make wider, `bitcast` keeps the type.
pub fn casts_differ()
    ensures trunc_to_the_same { mismatches (body (sets 1 (convert cast.Trunc i8 (int 0) i8) ∷ [])) ≡ (1, 0) ∷ [] }
    ensures trunc { mismatches (body (sets 1 (convert cast.Trunc i8 (int 0) i1) ∷ [])) ≡ [] }
    ensures zext_to_narrower { mismatches (body (sets 1 (convert cast.Zext i8 (int 0) i1) ∷ [])) ≡ (1, 0) ∷ [] }
    ensures sext_of_a_pointer { mismatches (body (sets 1 (convert cast.Sext ty.Ptr operand.Null i64) ∷ [])) ≡ (1, 0) ∷ [] }
    ensures ptrtoint { mismatches (body (sets 1 (convert cast.PtrToInt ty.Ptr operand.Null i8) ∷ [])) ≡ [] }
    ensures ptrtoint_of_a_word { mismatches (body (sets 1 (convert cast.PtrToInt i64 (int 0) i64) ∷ [])) ≡ (1, 0) ∷ [] }
    ensures inttoptr { mismatches (body (sets 1 (convert cast.IntToPtr i8 (int 0) ty.Ptr) ∷ [])) ≡ [] }
    ensures bitcast { mismatches (body (sets 1 (convert cast.Bitcast ty.Ptr operand.Null ty.Ptr) ∷ [])) ≡ [] }
    ensures bitcast_of_a_pointer { mismatches (body (sets 1 (convert cast.Bitcast ty.Ptr operand.Null i64) ∷ [])) ≡ (1, 0) ∷ [] }
{}

/// Steps of `getelementptr`: a struct's field is chosen by a constant `i32` in range, an array's item by any index, and
/// nothing else has parts. The first index counts whole types.
pub fn steps_differ()
    ensures field { mismatches (body (part_of ((i64, int 7) ∷ (i32, int 1) ∷ []) ∷ [])) ≡ [] }
    ensures field_out_of_range { mismatches (body (part_of ((i64, int 0) ∷ (i32, int 2) ∷ []) ∷ [])) ≡ (1, 2) ∷ [] }
    ensures field_by_wide_index { mismatches (body (part_of ((i64, int 0) ∷ (i64, int 1) ∷ []) ∷ [])) ≡ (1, 2) ∷ [] }
    ensures field_by_value { mismatches (with_func (codes "f") None ((i32, Number 0) ∷ []) (part_of ((i64, int 0) ∷ (i32, local 0) ∷ []) ∷ does (op.Ret None) ∷ []) (body [])) ≡ (2, 2) ∷ [] }
    ensures part_of_a_word { mismatches (body (part_of ((i64, int 0) ∷ (i32, int 0) ∷ (i64, int 0) ∷ []) ∷ [])) ≡ (1, 3) ∷ [] }
    ensures no_index { mismatches (body (part_of [] ∷ [])) ≡ [] }
    ensures item_by_value { mismatches (with_func (codes "f") None ((i8, Number 0) ∷ []) (sets 1 (op.Gep (array 2 i8) operand.Null ((i64, int 0) ∷ (i8, local 0) ∷ [])) ∷ does (op.Ret None) ∷ []) (body [])) ≡ [] }
    ensures index_of_another_type { mismatches (with_func (codes "f") None ((i8, Number 0) ∷ []) (sets 1 (op.Gep i8 operand.Null ((i64, local 0) ∷ [])) ∷ does (op.Ret None) ∷ []) (body [])) ≡ (2, 1) ∷ [] }
    ensures field_of_a_named_type { mismatches (with_types ((name (codes "t"), word_and_byte) ∷ []) (body (sets 1 (op.Gep (ty.Named (name (codes "t"))) operand.Null ((i64, int 0) ∷ (i32, int 2) ∷ [])) ∷ []))) ≡ (1, 2) ∷ [] }
    ensures constant_step { mismatches (with_globals (global_of (codes "g") word_and_byte initial.Zero ∷ []) (does (op.Store i8 (int 0) (operand.Offset (name (codes "g")) ((word_and_byte, (i64, 0) ∷ (i32, 2) ∷ []) ∷ []))) ∷ ends)) ≡ (1, 1) ∷ [] }
{}

/// Calls: an argument of another type, one too many or one that is missing, another type of the result, and what is no
/// callee. `printf` takes a pointer, and then words and pointers.
pub fn calls_differ()
    ensures argument { mismatches (body_with (putchar ∷ []) (sets 1 (op.Call (Some i32) putchar.name ((i64, int 65) ∷ [])) ∷ [])) ≡ (1, 0) ∷ [] }
    ensures surplus { mismatches (body_with (putchar ∷ []) (sets 1 (op.Call (Some i32) putchar.name ((i32, int 65) ∷ (i32, int 65) ∷ [])) ∷ [])) ≡ (1, 1) ∷ [] }
    ensures missing { mismatches (body_with (llvm_memcpy ∷ []) (does (op.Call None llvm_memcpy.name ((ty.Ptr, operand.Null) ∷ (ty.Ptr, operand.Null) ∷ [])) ∷ [])) ≡ (1, 2) ∷ [] }
    ensures result { mismatches (body_with (putchar ∷ []) (does (op.Call None putchar.name ((i32, int 65) ∷ [])) ∷ [])) ≡ (1, 0) ∷ [] }
    ensures argument_before_result { mismatches (with_empty_func (codes "f") ((i8, Number 0) ∷ (i8, Number 1) ∷ []) (body (sets 1 (op.Call (Some i8) (name (codes "f")) ((i8, int 0) ∷ (i16, int 0) ∷ [])) ∷ []))) ≡ (1, 1) ∷ [] }
    ensures global_as_callee { mismatches (with_globals (global_of (codes "g") i8 initial.Zero ∷ []) (calls_void (codes "g") ((i8, int 0) ∷ []) ∷ ends)) ≡ (1, 0) ∷ [] }
    ensures argument_before_callee { mismatches (with_globals (global_of (codes "g") i8 initial.Zero ∷ []) (calls_void (codes "g") ((i8, int 0) ∷ (i8, at_global (codes "g")) ∷ []) ∷ ends)) ≡ (1, 1) ∷ [] }
    ensures printf { mismatches (body_with (declares (codes "printf") (Some i32) (ty.Ptr ∷ []) ∷ []) (sets 1 (op.Call (Some i32) (name (codes "printf")) ((ty.Ptr, operand.Null) ∷ (i64, int 0) ∷ (ty.Ptr, operand.Null) ∷ (i32, int 0) ∷ [])) ∷ [])) ≡ [] }
    ensures printf_of_a_byte { mismatches (body_with (declares (codes "printf") (Some i32) (ty.Ptr ∷ []) ∷ []) (sets 1 (op.Call (Some i32) (name (codes "printf")) ((ty.Ptr, operand.Null) ∷ (i64, int 0) ∷ (i8, int 0) ∷ [])) ∷ [])) ≡ (1, 2) ∷ [] }
    ensures printf_of_nothing { mismatches (body_with (declares (codes "printf") (Some i32) (ty.Ptr ∷ []) ∷ []) (sets 1 (op.Call (Some i32) (name (codes "printf")) []) ∷ [])) ≡ (1, 0) ∷ [] }
    ensures own_printf { mismatches (with_empty_func (codes "printf") [] (body (calls_void (codes "printf") [] ∷ []))) ≡ [] }
{}

/// Initialisers: the site is 0, and the operand the global's number. What is undefined or zero fits every type.
pub fn initialisers_differ()
    ensures second_global { mismatches (with_globals (global_of (codes "g") word_and_byte initial.Zero ∷ global_of (codes "h") i8 (initial.Value (at_global (codes "g"))) ∷ []) ends) ≡ (0, 1) ∷ [] }
    ensures address { mismatches (with_globals (global_of (codes "g") ty.Ptr (initial.Value (at_global (codes "g"))) ∷ []) ends) ≡ [] }
    ensures function { mismatches (with_globals (global_of (codes "g") ty.Ptr (initial.Value (at_global (codes "main"))) ∷ []) ends) ≡ (0, 0) ∷ [] }
    ensures undefined { mismatches (with_globals (global_of (codes "g") word_and_byte (initial.Value operand.Poison) ∷ []) ends) ≡ [] }
    ensures text { mismatches (with_globals (global_of (codes "g") (array 2 i8) (initial.Text (65 ∷ 0 ∷ [])) ∷ []) ends) ≡ [] }
    ensures short_text { mismatches (with_globals (global_of (codes "g") (array 3 i8) (initial.Text (65 ∷ 0 ∷ [])) ∷ []) ends) ≡ (0, 0) ∷ [] }
    ensures text_of_words { mismatches (with_globals (global_of (codes "g") (array 2 i16) (initial.Text (65 ∷ 0 ∷ [])) ∷ []) ends) ≡ (0, 0) ∷ [] }
    ensures items { mismatches (with_globals (global_of (codes "g") (array 2 i8) (initial.Array ((i8, initial.Value (int 1)) ∷ (i8, initial.Zero) ∷ [])) ∷ []) ends) ≡ [] }
    ensures few_items { mismatches (with_globals (global_of (codes "g") (array 2 i8) (initial.Array ((i8, initial.Zero) ∷ [])) ∷ []) ends) ≡ (0, 0) ∷ [] }
    ensures other_items { mismatches (with_globals (global_of (codes "g") (array 1 i8) (initial.Array ((i16, initial.Zero) ∷ [])) ∷ []) ends) ≡ (0, 0) ∷ [] }
    ensures fields_of_a_named_type { mismatches (with_types ((name (codes "t"), word_and_byte) ∷ []) (with_globals (global_of (codes "g") (ty.Named (name (codes "t"))) (initial.Struct false ((i32, initial.Zero) ∷ (i8, initial.Zero) ∷ [])) ∷ []) ends)) ≡ [] }
    ensures packed_fields { mismatches (with_globals (global_of (codes "g") word_and_byte (initial.Struct true ((i32, initial.Zero) ∷ (i8, initial.Zero) ∷ [])) ∷ []) ends) ≡ (0, 0) ∷ [] }
{}

/// Phis and branches.
pub fn edges_differ()
    ensures each_edge { bad_edges (joins ((int 0, Number 0) ∷ (int 1, Number 2) ∷ [])) ≡ [] }
    ensures missing_edge { bad_edges (joins ((int 0, Number 0) ∷ [])) ≡ 4 ∷ [] }
    ensures further_edge { bad_edges (joins ((int 0, Number 0) ∷ (int 1, Number 2) ∷ (int 1, Number 3) ∷ [])) ≡ 4 ∷ [] }
    ensures value_as_label { bad_edges (joins ((int 0, Number 0) ∷ (int 1, Number 2) ∷ (int 1, Number 1) ∷ [])) ≡ 4 ∷ [] }
    ensures two_edges { bad_edges (joins_twice ((int 0, Number 0) ∷ (int 0, Number 0) ∷ [])) ≡ [] }
    ensures two_edges_once { bad_edges (joins_twice ((int 0, Number 0) ∷ [])) ≡ 3 ∷ [] }
    ensures two_operands { bad_edges (joins_twice ((int 0, Number 0) ∷ (int 1, Number 0) ∷ [])) ≡ 3 ∷ [] }
    ensures undef_and_poison { bad_edges (joins_twice ((operand.Undef, Number 0) ∷ (operand.Poison, Number 0) ∷ [])) ≡ [] }
    ensures phi_in_the_entry { bad_edges (main_of (sets 1 (op.Phi i32 ((int 0, Number 0) ∷ [])) ∷ ends) []) ≡ 1 ∷ [] }
    ensures case_to_the_entry { bad_edges (main_of (does (op.Switch i8 (int 0) (Number 0) []) ∷ []) []) ≡ 1 ∷ [] }
{}

/// `main`, externals, reserved names and intrinsics that move bits.
#[tactic(auto, unfolding(ms_ir::specs::Names::is_kept, ms_ir::specs::Names::bit_moves))]
pub fn externals_differ()
    ensures main_with_a_parameter { defines_main (with_func (codes "main") (Some i32) ((i32, Number 0) ∷ []) ends (module_of [] [])) ≡ false }
    ensures main_of_another_type { defines_main (with_empty_func (codes "main") [] (module_of [] [])) ≡ false }
    ensures declared_main { defines_main (module_of [] (declares (codes "main") (Some i32) [] ∷ [])) ≡ false }
    ensures main { defines_main (with_func (codes "main") (Some i32) [] ends (module_of [] [])) ≡ true }
    ensures not_called { bad_externals (body_with (declares (codes "putchar") None [] ∷ declares (codes "f") None [] ∷ []) []) ≡ [] }
    ensures none_of_them { bad_externals (body_with (declares (codes "f") None [] ∷ []) (calls_void (codes "f") [] ∷ [])) ≡ name (codes "f") ∷ [] }
    ensures printf { bad_externals (body_with (declares (codes "printf") (Some i32) (ty.Ptr ∷ []) ∷ []) (sets 1 (op.Call (Some i32) (name (codes "printf")) ((ty.Ptr, operand.Null) ∷ [])) ∷ [])) ≡ [] }
    ensures own_malloc { bad_externals own_malloc ≡ [] }
    ensures volatile { bad_externals (body_with (llvm_memcpy ∷ []) (does (call llvm_memcpy (operand.Null ∷ operand.Null ∷ int 0 ∷ int 1 ∷ [])) ∷ [])) ≡ llvm_memcpy.name ∷ [] }
    ensures not_volatile { bad_externals (body_with (llvm_memcpy ∷ []) (does (call llvm_memcpy (operand.Null ∷ operand.Null ∷ int 0 ∷ int 0 ∷ [])) ∷ [])) ≡ [] }
    ensures runtime_function { bad_externals (body_with (msan_check ∷ []) []) ≡ [] }
    ensures runtime_function_of_another_type { bad_externals (body_with (declares (codes "__msan_check") None [] ∷ []) []) ≡ name (codes "__msan_check") ∷ [] }
    ensures own_runtime_function { bad_externals (with_empty_func (codes "__msan_check") [] (body [])) ≡ name (codes "__msan_check") ∷ [] }
    ensures own_intrinsic { bad_externals (with_empty_func (codes "llvm.bswap.i16") [] (body [])) ≡ name (codes "llvm.bswap.i16") ∷ [] }
    ensures slot { bad_externals (with_globals (global_of (codes "__msan_retval_tls") i64 (initial.Value (int 0)) ∷ []) ends) ≡ [] }
    ensures slot_of_zeros { bad_externals (with_globals (global_of (codes "__msan_retval_tls") i64 initial.Zero ∷ []) ends) ≡ name (codes "__msan_retval_tls") ∷ [] }
    ensures constant_slot { bad_externals (with_globals (record (global_of (codes "__msan_retval_tls") i64 (initial.Value (int 0))) { constant = true } ∷ []) ends) ≡ name (codes "__msan_retval_tls") ∷ [] }
    ensures slot_of_another_type { bad_externals (with_globals (global_of (codes "__msan_retval_tls") i32 (initial.Value (int 0)) ∷ []) ends) ≡ name (codes "__msan_retval_tls") ∷ [] }
    ensures runtime_function_as_global { bad_externals (with_globals (global_of (codes "__msan_check") i64 initial.Zero ∷ []) ends) ≡ name (codes "__msan_check") ∷ [] }
{}

/// Marks: a marked instruction has the site of the next unmarked one.
#[tactic(auto, unfolding(ms_ir::specs::Names::bit_moves))]
pub fn marks_differ()
    ensures result { bad_marks (body (binds_marked (codes "__msan.1") (op.Freeze i8 (int 0)) ∷ [])) ≡ [] }
    ensures unmarked_result { bad_marks (body (binds (codes "__msan.1") (op.Freeze i8 (int 0)) ∷ [])) ≡ 1 ∷ [] }
    ensures marked_result_without_the_name { bad_marks (body (binds_marked (codes "x") (op.Freeze i8 (int 0)) ∷ [])) ≡ 1 ∷ [] }
    ensures used { bad_marks (body (binds_marked (codes "__msan.1") (op.Freeze i8 (int 0)) ∷ sets 1 (op.Freeze i8 (at_local (codes "__msan.1"))) ∷ [])) ≡ 1 ∷ [] }
    ensures used_before_it_stands { bad_marks (body (sets 1 (op.Freeze i8 (at_local (codes "x"))) ∷ binds_marked (codes "x") (op.Freeze i8 (int 0)) ∷ [])) ≡ 1 ∷ 2 ∷ [] }
    ensures marked_branch { bad_marks (main_of (does (op.Store i8 (int 0) operand.Null) ∷ does_marked (op.Ret (Some (i32, int 0))) ∷ []) []) ≡ 2 ∷ [] }
    ensures marked_external { bad_marks (body_with (putchar ∷ []) (does_marked (call putchar (int 0 ∷ [])) ∷ [])) ≡ 1 ∷ [] }
    ensures marked_intrinsic { bad_marks (body (binds_marked (codes "__msan.1") (op.Call (Some i8) (name (codes "llvm.bitreverse.i8")) ((i8, int 0) ∷ [])) ∷ [])) ≡ [] }
    ensures marked_count { bad_marks (body (binds_marked (codes "__msan.1") (op.Call (Some i8) (name (codes "llvm.ctpop.i8")) ((i8, int 0) ∷ [])) ∷ [])) ≡ 1 ∷ [] }
    ensures marked_runtime_call { bad_marks (body_with (msan_check ∷ []) (does_marked (call msan_check (int 0 ∷ int 1 ∷ int 0 ∷ int 1 ∷ int 0 ∷ int 1 ∷ [])) ∷ [])) ≡ [] }
    ensures unmarked_runtime_call { bad_marks (body_with (msan_check ∷ []) (does (call msan_check (int 0 ∷ int 1 ∷ int 0 ∷ int 1 ∷ int 0 ∷ int 1 ∷ [])) ∷ [])) ≡ 1 ∷ [] }
    ensures unmarked_slot { bad_marks (body (does (op.Store i64 (int 0) (at_global (codes "__msan_retval_tls"))) ∷ [])) ≡ 1 ∷ [] }
    ensures unmarked_step_from_a_slot { bad_marks (body (does (op.Store i64 (int 0) (operand.Offset (name (codes "__msan_retval_tls")) ((i8, []) ∷ []))) ∷ [])) ≡ 1 ∷ [] }
    ensures marked_slot { bad_marks (body (does_marked (op.Store i64 (int 0) (at_global (codes "__msan_retval_tls"))) ∷ [])) ≡ [] }
{}

/// Sizes: a type that holds itself has none, nor has one of more than 2^26 bytes, also below an array of length 0. The
/// globals together have 16 MiB.
pub fn sizes_differ()
    ensures endless { unsized (with_types endless (body [])) ≡ percent (name (codes "t")) ∷ [] }
    ensures array_of_none { unsized (with_types endless (with_globals (global_of (codes "g") (array 0 (ty.Named (name (codes "t")))) initial.Zero ∷ []) ends)) ≡ percent (name (codes "t")) ∷ symbol (codes "g") ∷ [] }
    ensures largest_type { unsized (body (sets 1 (alloca (array 67108864 i8)) ∷ [])) ≡ [] }
    ensures too_large_in_a_function { unsized (body (sets 1 (alloca (array 67108865 i8)) ∷ [])) ≡ symbol (codes "main") ∷ [] }
    ensures in_a_step { unsized (body (sets 1 (op.Gep (array 0 (array 67108865 i8)) operand.Null []) ∷ [])) ≡ symbol (codes "main") ∷ [] }
    ensures all_of_the_globals { unsized (with_globals (global_of (codes "g") (array 16777200 i8) initial.Zero ∷ global_of (codes "h") i8 initial.Zero ∷ []) ends) ≡ [] }
    ensures one_global_more { unsized (with_globals (global_of (codes "g") (array 16777200 i8) initial.Zero ∷ global_of (codes "h") i8 initial.Zero ∷ global_of (codes "i") (array 0 i8) initial.Zero ∷ global_of (codes "j") i8 initial.Zero ∷ []) ends) ≡ symbol (codes "i") ∷ [] }
    ensures slots_take_nothing { unsized (with_globals (global_of (codes "g") (array 16777216 i8) initial.Zero ∷ global_of (codes "__msan_retval_tls") i64 (initial.Value (int 0)) ∷ []) ends) ≡ [] }
{}
