//! What texts read as, and where they stop: laws about the definitions, computed by the prover. The values are worked out by
//! hand from what the grammar says, and none is taken from a program. `Plain` and `Instrumented` are the forms of a text;
//! `stops` has the token at which a text is refused, from 0, and the cause; `in_function` puts lines into a function.
ghost use Rattle.std.specs.Prelude.{◌≡◌, [], ◌∷◌, ◌++◌, codes, map, true, false, Some, None, Ok, Err};
ghost use Rattle.ms_bits.specs.declared.operations.BinOp.TheVariants as binary;
ghost use Rattle.ms_bits.specs.declared.operations.CastOp.TheVariants as cast;
ghost use Rattle.ms_bits.specs.declared.operations.Pred.TheVariants as predicate;
ghost use Rattle.ms_lex.specs.declared.kinds.Kind.TheVariants as k;
ghost use Rattle.ms_lex.specs.declared.errors.LexError.TheVariants.{BadByte, OpenString};
ghost use Rattle.ms_ir.specs.declared.syntax.Init as init;
ghost use Rattle.ms_ir.specs.declared.syntax.Name.TheVariants.{Number, Text};
ghost use Rattle.ms_ir.specs.Builders.{i1, i8, i16, i32, i64, array, alloca, block, does, sets, int, undef, declares, module_of};
ghost use Rattle.ms_ir.specs.declared.forms.Form.TheVariants.{Plain, Instrumented};
ghost use Rattle.ms_ir.specs.declared.syntax.Op.TheVariants as op;
ghost use Rattle.ms_ir.specs.declared.syntax.Operand.TheVariants as operand;
ghost use Rattle.ms_ir.specs.declared.syntax.Ty as ty;
ghost use Rattle.ms_runs_examples.specs.Programs.{returns_zero, branch_on_unset, masked_to_zero, ordered_compare, select_undef, shared_cell, lost_in_addition, recursion, nested_call, write_with_gap, store_to_shadow, clang_unoptimised};
ghost use Rattle.ms_bits.specs.NoFlags.{no_flags};
ghost use Rattle.ms_text_grammar.specs.declared.refusals.Limit.TheVariants as limit;
ghost use Rattle.ms_text_grammar.specs.declared.refusals.Outside.TheVariants as outside;
ghost use Rattle.ms_text_grammar.specs.declared.refusals.Cause.TheVariants as r;
ghost use Rattle.ms_text_grammar.specs.Answers.{reads, stops, has_no_tokens, answer_of, refused_at, function_stop, constructs_of};
ghost use Rattle.ms_runs_examples.specs.Carriers.{carriers};
ghost use Rattle.ms_text_grammar.specs.{Lexemes.{lexeme}, Modules.{entity_begins}};
ghost use Rattle.ms_runs_examples.specs.ReadModules.{copies, with_declarations, with_globals, returns, blocks_of, function_of, named_block, marked_alloca, global_of, line_module};
ghost use Rattle.ms_runs_examples.specs.Texts.{times, in_function, quoted_words, at_head, returns_zero_text, branch_on_unset_text, masked_to_zero_text, ordered_compare_text, select_undef_text, shared_cell_text, lost_in_addition_text, recursion_text, nested_call_text, write_with_gap_text, store_to_shadow_text, clang_unoptimised_text, clang_debug_text};

/// The example modules are what their texts read as.
pub fn modules_are_read()
    ensures returns_zero { answer_of Plain returns_zero_text ≡ reads returns_zero }
    ensures branch_on_unset { answer_of Plain branch_on_unset_text ≡ reads branch_on_unset }
    ensures masked_to_zero { answer_of Plain masked_to_zero_text ≡ reads masked_to_zero }
    ensures ordered_compare { answer_of Plain ordered_compare_text ≡ reads (ordered_compare 16) }
    ensures select_undef { answer_of Plain select_undef_text ≡ reads select_undef }
    ensures lost_in_addition { answer_of Plain lost_in_addition_text ≡ reads lost_in_addition }
    ensures recursion { answer_of Plain recursion_text ≡ reads (recursion 1023) }
    ensures nested_call { answer_of Plain nested_call_text ≡ reads nested_call }
    ensures store_to_shadow { answer_of Plain store_to_shadow_text ≡ reads store_to_shadow }
{}

/// Where a text stops, and why: the tokens are counted from 0.
pub fn texts_stop()
    ensures empty_text { answer_of Plain [] ≡ reads (record { types = []; globals = []; decls = []; funcs = [] }) }
    ensures number_too_large { answer_of Plain (codes "define i32 @f() { ret i1 2 }") ≡ stops 8 r.Syntax }
    ensures flag_twice { answer_of Plain (in_function (codes "%1 = add nsw nsw i32 1, 2")) ≡ stops 10 r.Syntax }
    ensures flag_of_another { answer_of Plain (in_function (codes "%1 = and nsw i32 1, 2")) ≡ stops 9 r.Syntax }
    ensures true_of_a_word { answer_of Plain (codes "define i32 @f() { ret i32 true }") ≡ stops 8 r.Syntax }
    ensures store_with_a_name { answer_of Plain (in_function (codes "%x = store i32 0, ptr null")) ≡ stops 8 r.Syntax }
    ensures void_with_a_name { answer_of Plain (in_function (codes "%x = call void @f()")) ≡ stops 9 r.Syntax }
    ensures branch_on_a_byte { answer_of Plain (in_function (codes "br i8 1, label %0, label %0")) ≡ stops 7 r.Syntax }
    ensures type_of_a_callee { answer_of Plain (in_function (codes "%1 = call i32 (i32) @g(i32 1)")) ≡ stops 11 r.Syntax }
    ensures sum_of_vectors { answer_of Plain (in_function (codes "%1 = add <4 x i32> undef, undef")) ≡ stops 9 r.Syntax }
    ensures load_of_a_vector { answer_of Plain (in_function (codes "%1 = load <4 x i32>, ptr null")) ≡ stops 9 (r.Outside outside.AggregateValue) }
    ensures room_for_a_vector { answer_of Plain (in_function (codes "%1 = alloca <4 x i32>")) ≡ stops 10 (r.Outside outside.Vector) }
    ensures record_before_the_end { answer_of Plain (codes "define void @f() { ret void #dbg_value() }") ≡ stops 11 r.Syntax }
    ensures record_after_a_call { answer_of Plain (in_function (codes "call void @f() #dbgx(), align 4")) ≡ stops 14 r.Syntax }
    ensures label_that_is_not_next { answer_of Plain (codes "define void @f() { 1: ret void }") ≡ stops 6 r.Numbering }
    ensures parameter_that_is_not_next { answer_of Plain (codes "define void @f(i32 %1) { ret void }") ≡ stops 5 r.Numbering }
    ensures phi_after_an_instruction { answer_of Plain (in_function (codes "%1 = add i32 1, 2 %2 = phi i32 [ 0, %0 ]")) ≡ stops 15 r.Syntax }
    ensures label_in_an_open_block { answer_of Plain (in_function (codes "%1 = add i32 1, 2 2:")) ≡ stops 13 r.Syntax }
    ensures unbalanced { answer_of Plain (codes "!0 = !{ ( ] }") ≡ stops 5 r.Syntax }
{}

/// What only the instrumented form has.
pub fn forms_differ()
    ensures mark_in_plain { answer_of Plain (in_function (codes "%1 = alloca i32, !nosanitize !0")) ≡ stops 11 r.Reserved }
    ensures mark { answer_of Instrumented (in_function (codes "%1 = alloca i32, !nosanitize !0")) ≡ reads (marked_alloca (Number 1) true) }
    ensures mark_needs_a_name { answer_of Instrumented (in_function (codes "%1 = alloca i32, !nosanitize !{}")) ≡ reads (marked_alloca (Number 1) false) }
    ensures inserted_result { answer_of Instrumented (in_function (codes "%__msan.7 = alloca i32, !nosanitize !0")) ≡ reads (marked_alloca (Text (codes "__msan.7")) true) }
    ensures runtime_function { answer_of Instrumented (codes "declare void @__msan_unpoison(ptr, i64)") ≡ reads (module_of [] (declares (codes "__msan_unpoison") None (ty.Ptr ∷ i64 ∷ []) ∷ [])) }
    ensures runtime_function_in_plain { answer_of Plain (codes "declare void @__msan_unpoison(ptr, i64)") ≡ stops 2 r.Reserved }
    ensures global_that_is_none { answer_of Instrumented (codes "@__msan.5 = global i8 0") ≡ stops 0 r.Reserved }
    ensures local_that_is_none { answer_of Instrumented (in_function (codes "%__msan_check = alloca i32")) ≡ stops 6 r.Reserved }
    ensures reserved_in_metadata { answer_of Plain (codes "!0 = !{ptr @__msan_check}") ≡ stops 5 r.Reserved }
{}

/// Which limit a token passes.
pub fn limits_are_named()
    ensures name { answer_of Plain (64 ∷ times 1025 (codes "a") ++ codes " = global i8 0") ≡ stops 0 (r.Limit limit.Name) }
    ensures types { answer_of Plain (codes "@g = global " ++ times 33 (codes "[1 x ") ++ codes "i8") ≡ stops 99 (r.Limit limit.Types) }
    ensures initialisers { answer_of Plain (codes "@g = global i8 " ++ times 33 (codes "[ i8 ")) ≡ stops 68 (r.Limit limit.Types) }
    ensures parameters { answer_of Plain (codes "define void @f(i32" ++ times 100 (codes ", i32") ++ codes ") {") ≡ stops 204 (r.Limit limit.Parameters) }
    ensures indices { answer_of Plain (codes "define void @f() { %1 = getelementptr i8, ptr null" ++ times 65 (codes ", i64 0")) ≡ stops 206 (r.Limit limit.Indices) }
    ensures arguments_of_printf { answer_of Plain (codes "define void @f() { %1 = call i32 @printf(ptr null" ++ times 100 (codes ", i32 0")) ≡ stops 312 (r.Limit limit.Parameters) }
{}

/// For which construct a text is refused.
pub fn constructs_are_named()
    ensures floating_point { constructs_of ((codes "define float @f() {") ∷ (codes "@g = global i8 1.5") ∷ []) ≡ Some outside.FloatingPoint ∷ Some outside.FloatingPoint ∷ [] }
    ensures vector { constructs_of ((codes "@g = global <4 x i32> zeroinitializer") ∷ (in_function (codes "%1 = extractelement i32 0")) ∷ []) ≡ Some outside.Vector ∷ Some outside.Vector ∷ [] }
    ensures wide_integer { constructs_of ((codes "@g = global i65 0") ∷ (codes "@g = global i64 18446744073709551616") ∷ (codes "@g = global i64 -9223372036854775809") ∷ (codes "@g = global [18446744073709551616 x i8] zeroinitializer") ∷ []) ≡ Some outside.WideInteger ∷ Some outside.WideInteger ∷ Some outside.WideInteger ∷ Some outside.WideInteger ∷ [] }
    ensures address_space { constructs_of ((codes "@g = addrspace(1) global i8 0") ∷ []) ≡ Some outside.AddressSpace ∷ [] }
    ensures thread_local { constructs_of ((codes "@g = thread_local global i8 0") ∷ []) ≡ Some outside.ThreadLocal ∷ [] }
    ensures aggregate_value { constructs_of ((codes "define [2 x i8] @f() {") ∷ (codes "define void @f({ i8 } %0) {") ∷ (in_function (codes "%1 = load %t, ptr null")) ∷ (in_function (codes "%1 = insertvalue i32 0")) ∷ []) ≡ Some outside.AggregateValue ∷ Some outside.AggregateValue ∷ Some outside.AggregateValue ∷ Some outside.AggregateValue ∷ [] }
    ensures by_value { constructs_of ((codes "define void @f(ptr byval(i8) %0) {") ∷ []) ≡ Some outside.ByValue ∷ [] }
    ensures indirect_call { constructs_of ((in_function (codes "call void %0()")) ∷ []) ≡ Some outside.IndirectCall ∷ [] }
    ensures function_type { constructs_of ((in_function (codes "call void (i32) @f(i32 1)")) ∷ (in_function (codes "%1 = call i32 (ptr, ...) @g(ptr null)")) ∷ []) ≡ Some outside.FunctionType ∷ Some outside.FunctionType ∷ [] }
    ensures variadic { constructs_of ((codes "declare i32 @f(ptr, ...)") ∷ []) ≡ Some outside.Variadic ∷ [] }
    ensures exceptions { constructs_of ((in_function (codes "invoke void @f()")) ∷ []) ≡ Some outside.Exceptions ∷ [] }
    ensures assembly { constructs_of ((codes "module asm \"x\"") ∷ (in_function (codes "call void asm \"x\"()")) ∷ []) ≡ Some outside.Assembly ∷ Some outside.Assembly ∷ [] }
    ensures indirect_branch { constructs_of ((in_function (codes "indirectbr ptr null, []")) ∷ []) ≡ Some outside.IndirectBranch ∷ [] }
    ensures atomics { constructs_of ((in_function (codes "fence seq_cst")) ∷ (in_function (codes "%1 = load atomic i32, ptr null")) ∷ []) ≡ Some outside.Atomics ∷ Some outside.Atomics ∷ [] }
    ensures volatile { constructs_of ((in_function (codes "store volatile i32 0, ptr null")) ∷ []) ≡ Some outside.Volatile ∷ [] }
    ensures variable_arguments { constructs_of ((in_function (codes "%1 = va_arg ptr null, i32")) ∷ []) ≡ Some outside.VariableArguments ∷ [] }
    ensures alias { constructs_of ((codes "@a = alias i8, ptr @g") ∷ []) ≡ Some outside.Alias ∷ [] }
    ensures comdat { constructs_of ((codes "$c = comdat any") ∷ (codes "@g = global i8 0, comdat") ∷ []) ≡ Some outside.Comdat ∷ Some outside.Comdat ∷ [] }
    ensures external_global { constructs_of ((codes "@g = external global i8") ∷ []) ≡ Some outside.ExternalGlobal ∷ [] }
    ensures opaque_type { constructs_of ((codes "%t = type opaque") ∷ []) ≡ Some outside.OpaqueType ∷ [] }
    ensures typed_pointer { constructs_of ((codes "@g = global i8* null") ∷ []) ≡ Some outside.TypedPointer ∷ [] }
    ensures metadata_operand { constructs_of ((in_function (codes "call void @f(metadata i32 0)")) ∷ []) ≡ Some outside.MetadataOperand ∷ [] }
    ensures operand_bundle { constructs_of ((in_function (codes "call void @f() [ \"x\"() ]")) ∷ []) ≡ Some outside.OperandBundle ∷ [] }
    ensures constant_expression { constructs_of ((codes "@g = global i64 ptrtoint (ptr @h to i64)") ∷ (codes "define i32 @f() { ret i32 add (i32 1, i32 2) }") ∷ []) ≡ Some outside.ConstantExpression ∷ Some outside.ConstantExpression ∷ [] }
    ensures call_of_main { constructs_of ((in_function (codes "%1 = call i32 @main()")) ∷ []) ≡ Some outside.CallOfMain ∷ [] }
{}

/// Types, globals and declarations.
pub fn entities_are_read()
    ensures struct_of_a_name { answer_of Plain (codes "%pair = type { i32, [2 x i8] }") ≡ reads (record { types = (Text (codes "pair"), ty.Struct false (i32 ∷ ty.Array 2 i8 ∷ [])) ∷ []; globals = []; decls = []; funcs = [] }) }
    ensures packed_struct { answer_of Plain (codes "%04 = type <{ i8, ptr }>") ≡ reads (record { types = (Number 4, ty.Struct true (i8 ∷ ty.Ptr ∷ [])) ∷ []; globals = []; decls = []; funcs = [] }) }
    ensures constant { answer_of Plain (codes "@g = private unnamed_addr constant i64 -1, align 8, section \"x\", !dbg !7") ≡ reads (global_of (codes "g") true i64 (init.Value (int 18446744073709551615))) }
    ensures address { answer_of Plain (codes "@0 = global ptr @\"a b\"") ≡ reads (global_of (codes "0") false ty.Ptr (init.Value (operand.Global (Text (codes "a b"))))) }
    ensures step { answer_of Plain (codes "@g = global ptr getelementptr inbounds (i8, ptr @h, i64 3)") ≡ reads (global_of (codes "g") false ty.Ptr (init.Value (operand.Offset (Text (codes "h")) ((i8, (i64, 3) ∷ []) ∷ [])))) }
    ensures printf { answer_of Plain (codes "declare !dbg !6 extern_weak noalias i32 @printf(ptr noundef %0, ...) #1") ≡ reads (module_of [] (declares (codes "printf") (Some i32) (ty.Ptr ∷ []) ∷ [])) }
    ensures nothing_else { answer_of Plain (codes "source_filename = \"a\" target triple = \"x\" attributes #0 = { \"k\"=\"v\" } !0 = distinct !{!0} !1 = !DILocation(line: 3)") ≡ reads (module_of [] []) }
{}

/// Instructions.
pub fn lines_are_read()
    ensures arithmetic { answer_of Plain (in_function (codes "%1 = add nsw nuw i32 -1, 2")) ≡ reads (line_module (Number 1) (op.Binary binary.Add (record no_flags { nuw = true; nsw = true }) i32 (int 4294967295) (int 2))) }
    ensures comparison { answer_of Plain (in_function (codes "%x = icmp samesign slt ptr null, poison, !dbg !3")) ≡ reads (line_module (Text (codes "x")) (op.Icmp predicate.Slt (record no_flags { samesign = true }) ty.Ptr operand.Null operand.Poison)) }
    ensures cast { answer_of Plain (in_function (codes "%1 = zext nneg i8 -56 to i32")) ≡ reads (line_module (Number 1) (op.Cast cast.Zext (record no_flags { nneg = true }) i8 (int 200) i32)) }
    ensures unnamed { answer_of Plain (in_function (codes "freeze i1 true")) ≡ reads (line_module (Number 1) (op.Freeze i1 (int 1))) }
    ensures count { answer_of Plain (in_function (codes "%1 = alloca i8, i64 5, align 16")) ≡ reads (line_module (Number 1) (op.Alloca i8 i64 (int 5))) }
    ensures call { answer_of Plain (in_function (codes "%1 = tail call noundef i32 (ptr, ...) @printf(ptr noundef null, i32 align 4 7) nounwind #2 #dbgx")) ≡ reads (line_module (Number 1) (op.Call (Some i32) (Text (codes "printf")) ((ty.Ptr, operand.Null) ∷ (i32, int 7) ∷ []))) }
{}

/// The example modules with arrays.
pub fn arrays_are_read()
    ensures shared_cell { answer_of Plain shared_cell_text ≡ reads shared_cell }
    ensures write_with_gap { answer_of Plain write_with_gap_text ≡ reads write_with_gap }
    ensures clang_unoptimised { answer_of Plain clang_unoptimised_text ≡ reads clang_unoptimised }
    ensures with_debug_metadata { answer_of Plain clang_debug_text ≡ reads clang_unoptimised }
{}

/// What has no tokens.
pub fn lexer_refuses()
    ensures bad_byte { answer_of Plain (codes "?") ≡ has_no_tokens (BadByte 0) }
    ensures open_string { answer_of Plain (codes "\"abc") ≡ has_no_tokens (OpenString 0) }
{}

/// At which token, at which byte and why a text is refused.
pub fn places_are_named()
    ensures open_function { refused_at Plain (codes "define i32 @main() {") ≡ Some (6, 20, r.Syntax) }
    ensures floating_point { refused_at Plain (codes "define i32 @main() {\n  %1 = fadd i32 1, 2\n  ret i32 0\n}\n") ≡ Some (8, 28, (r.Outside outside.FloatingPoint)) }
    ensures reserved_result { refused_at Plain (codes "define i32 @main() {\n  %__msan.x = add i32 1, 2\n  ret i32 0\n}\n") ≡ Some (6, 23, r.Reserved) }
    ensures second_number_first { refused_at Plain (codes "define i32 @main() {\n  %2 = alloca i32\n  ret i32 0\n}\n") ≡ Some (6, 23, r.Numbering) }
    ensures long_name { refused_at Plain (64 ∷ times 1025 (codes "a") ++ codes " = global i8 0") ≡ Some (0, 0, (r.Limit limit.Name)) }
    ensures types { refused_at Plain (codes "@g = global " ++ times 33 (codes "[1 x ") ++ codes "i8" ++ times 33 (codes "]") ++ codes " zeroinitializer") ≡ Some (99, 172, (r.Limit limit.Types)) }
{}

/// Which numbers may stand, and what they are.
pub fn numbers_are_judged()
    ensures above_a_byte { answer_of Plain (codes "define i8 @f() { ret i8 256 }") ≡ stops 8 r.Syntax }
    ensures below_a_byte { answer_of Plain (codes "define i8 @f() { ret i8 -129 }") ≡ stops 8 r.Syntax }
    ensures least_byte { answer_of Plain (codes "@g = global i8 -128") ≡ reads (global_of (codes "g") false i8 (init.Value (int 128))) }
    ensures greatest_word { answer_of Plain (codes "@g = global i64 18446744073709551615") ≡ reads (global_of (codes "g") false i64 (init.Value (int 18446744073709551615))) }
    ensures least_word { answer_of Plain (codes "@g = global i64 -9223372036854775808") ≡ reads (global_of (codes "g") false i64 (init.Value (int 9223372036854775808))) }
    ensures minus_one_bit { answer_of Plain (codes "@g = global i1 -1") ≡ reads (global_of (codes "g") false i1 (init.Value (int 1))) }
    ensures leading_zero_of_a_width { answer_of Plain (codes "@g = global i032 7") ≡ reads (global_of (codes "g") false i32 (init.Value (int 7))) }
    ensures no_bits { answer_of Plain (codes "@g = global i0 7") ≡ stops 3 r.Syntax }
    ensures too_wide_in_a_body { answer_of Plain (in_function (codes "18446744073709551616")) ≡ stops 6 (r.Outside outside.WideInteger) }
    ensures too_wide_read_over { answer_of Plain (codes "@g = global i8 0, align 18446744073709551616") ≡ reads (global_of (codes "g") false i8 (init.Value (int 0))) }
    ensures too_wide_after_less { answer_of Plain (codes "@g = global <18446744073709551616 x i8> zeroinitializer") ≡ stops 4 (r.Outside outside.Vector) }
    ensures negative_count { answer_of Plain (codes "@g = global [-1 x i8] zeroinitializer") ≡ stops 4 r.Syntax }
    ensures minus_zero_count { answer_of Plain (codes "@g = global [-0 x i8] zeroinitializer") ≡ reads (global_of (codes "g") false (ty.Array 0 i8) init.Zero) }
    ensures case_above_a_byte { answer_of Plain (in_function (codes "switch i8 0, label %0 [ i8 256, label %0 ]")) ≡ stops 14 r.Syntax }
    ensures case_of_another_type { answer_of Plain (in_function (codes "switch i8 0, label %0 [ i16 1, label %0 ]")) ≡ stops 13 r.Syntax }
    ensures null_of_a_word { answer_of Plain (codes "define i32 @f() { ret i32 null }") ≡ stops 8 r.Syntax }
    ensures number_of_a_pointer { answer_of Plain (codes "define ptr @f() { ret ptr 0 }") ≡ stops 8 r.Syntax }
{}

/// Which names and numbers of names may stand.
pub fn names_are_judged()
    ensures digits_in_quotes { answer_of Plain (in_function (codes "%\"1\" = alloca i32")) ≡ reads (line_module (Text (codes "1")) (alloca i32)) }
    ensures leading_zero { answer_of Plain (in_function (codes "%01 = alloca i32")) ≡ reads (line_module (Number 1) (alloca i32)) }
    ensures greatest_number { answer_of Plain (codes "define void @f() { br label %4294967295 }") ≡ reads (function_of (does (op.Br (Number 4294967295)) ∷ [])) }
    ensures number_above_it { answer_of Plain (codes "define void @f() { br label %4294967296 }") ≡ stops 8 r.Numbering }
    ensures type_above_it { answer_of Plain (codes "%4294967296 = type { }") ≡ stops 0 r.Numbering }
    ensures result_above_it { answer_of Plain (in_function (codes "%4294967297 = alloca i32")) ≡ stops 6 r.Numbering }
    ensures label_above_it { answer_of Plain (codes "define void @f() { 4294967296: ret void }") ≡ stops 6 r.Numbering }
    ensures reserved_before_too_long { answer_of Plain (codes "@__msan" ++ times 1025 (codes "a") ++ codes " = global i8 0") ≡ stops 0 r.Reserved }
    ensures reserved_when_decoded { answer_of Plain (codes "@\"\\5f_msan\" = global i8 0") ≡ stops 0 r.Reserved }
    ensures longest { answer_of Plain (64 ∷ times 1024 (codes "a") ++ codes " = global i8 0") ≡ reads (global_of (times 1024 (codes "a")) false i8 (init.Value (int 0))) }
    ensures numbers_read_over { answer_of Plain (codes "!0 = !{i32 %4294967296, i64 18446744073709551616, !nosanitize}") ≡ reads (module_of [] []) }
    ensures mark_as_an_entity { answer_of Plain (codes "!nosanitize = !{}") ≡ reads (module_of [] []) }
    ensures too_long_read_over { answer_of Plain (codes "!0 = !{ptr @" ++ times 1025 (codes "a") ++ codes "}") ≡ stops 5 (r.Limit limit.Name) }
    ensures reserved_label { answer_of Plain (codes "define void @f() { __msan_x: ret void }") ≡ stops 6 r.Reserved }
    ensures reserved_parameter { answer_of Plain (codes "declare void @f(ptr %__msan.1)") ≡ stops 5 r.Reserved }
    ensures reserved_callee { answer_of Plain (in_function (codes "call void @__msan_check()")) ≡ stops 8 r.Reserved }
{}

/// How unnamed values and blocks are numbered.
pub fn numbers_are_successive()
    ensures void_call { answer_of Plain (in_function (codes "call void @g() %1 = alloca i32")) ≡ reads (function_of (does (op.Call None (Text (codes "g")) []) ∷ sets 1 (alloca i32) ∷ returns ∷ [])) }
    ensures unlabelled_block { answer_of Plain (codes "define void @f() { ret void %2 = alloca i32 ret void }") ≡ reads (blocks_of (block 0 (returns ∷ []) ∷ block 1 (sets 2 (alloca i32) ∷ returns ∷ []) ∷ [])) }
    ensures entry_with_a_name { answer_of Plain (codes "define void @f() { e: %0 = alloca i32 ret void }") ≡ reads (blocks_of (named_block (codes "e") (sets 0 (alloca i32) ∷ returns ∷ []) ∷ [])) }
    ensures result_with_a_name { answer_of Plain (in_function (codes "%x = alloca i32 alloca i32")) ≡ reads (function_of (record { op = alloca i32; result = Some (Text (codes "x")); marked = false } ∷ sets 1 (alloca i32) ∷ returns ∷ [])) }
    ensures parameters { answer_of Plain (codes "define void @f(i32 %a, i32, i32 %1) { 2: ret void }") ≡ reads (module_of (record { name = Text (codes "f"); ret = None; params = (i32, Text (codes "a")) ∷ (i32, Number 0) ∷ (i32, Number 1) ∷ []; blocks = block 2 (returns ∷ []) ∷ [] } ∷ []) []) }
    ensures label_after_a_terminator { answer_of Plain (codes "define void @f() { ret void 2: ret void }") ≡ stops 8 r.Numbering }
    ensures parameter_of_a_declaration { answer_of Plain (codes "declare void @f(i32 %1)") ≡ stops 5 r.Numbering }
{}

/// Attributes, linkage and attached metadata.
pub fn attributes_are_read_over()
    ensures all_kinds { answer_of Plain (codes "define void @f() exact eq inbounds section \"x\" align 8 #0 #dbgx \"a\" \"b\"=\"c\" foo(bar [ { } ] ( < )) !dbg !6 nounwind { ret void }") ≡ reads (function_of (returns ∷ [])) }
    ensures samesign { answer_of Plain (codes "define void @f() samesign {") ≡ stops 5 r.Syntax }
    ensures quoted_word { answer_of Plain (codes "define void @f() x {") ≡ stops 5 r.Syntax }
    ensures operation { answer_of Plain (codes "define void @f() add {") ≡ stops 5 r.Syntax }
    ensures external_in_front { answer_of Plain (codes "define external dso_local extern_weak void @f() { ret void }") ≡ reads (function_of (returns ∷ [])) }
    ensures external_after { answer_of Plain (codes "define void @f() external {") ≡ stops 5 r.Syntax }
    ensures metadata_after_linkage { answer_of Plain (codes "declare noalias !dbg !6 ptr @f()") ≡ stops 2 r.Syntax }
    ensures one_name_of_metadata { answer_of Plain (codes "define void @f() !dbg {") ≡ stops 6 r.Syntax }
    ensures mark_of_a_function { answer_of Plain (codes "define void @f() !nosanitize !0 {") ≡ stops 5 r.Reserved }
    ensures mark_of_a_declaration { answer_of Plain (codes "declare !nosanitize !0 void @f()") ≡ stops 1 r.Reserved }
    ensures mark_of_a_global { answer_of Plain (codes "@g = global i8 0, !nosanitize !0") ≡ stops 6 r.Reserved }
    ensures section_in_front_of_a_global { answer_of Plain (codes "@g = section global i8 0") ≡ reads (global_of (codes "g") false i8 (init.Value (int 0))) }
    ensures brackets_in_front_of_a_global { answer_of Plain (codes "@g = foo(1) global i8 0") ≡ stops 3 r.Syntax }
    ensures open_bracket { answer_of Plain (codes "attributes #0 = { ( }") ≡ stops 5 r.Syntax }
    ensures open_at_the_end { answer_of Plain (codes "attributes #0 = { (") ≡ stops 5 r.Syntax }
{}

/// What is attached to an instruction.
pub fn suffixes_are_read_over()
    ensures many { answer_of Plain (in_function (codes "%1 = alloca i32, align 4, !dbg !1, !x !{i32 0}, !y !DILocation(line: 1)")) ≡ reads (marked_alloca (Number 1) false) }
    ensures mark_after_a_kind { answer_of Plain (in_function (codes "%1 = alloca i32, !a !nosanitize")) ≡ reads (marked_alloca (Number 1) false) }
    ensures mark_with_brackets { answer_of Instrumented (in_function (codes "%1 = alloca i32, !dbg !3, !nosanitize !5(i32 1), align 4")) ≡ reads (marked_alloca (Number 1) true) }
    ensures count_after_a_suffix { answer_of Plain (in_function (codes "%1 = alloca i8, align 4, i64 5")) ≡ stops 14 r.Syntax }
    ensures second_count { answer_of Plain (in_function (codes "%1 = alloca i8, i64 5, i64 6")) ≡ stops 14 r.Syntax }
    ensures bracket_after_a_comma { answer_of Plain (in_function (codes "%1 = alloca i8, [")) ≡ stops 11 r.Syntax }
    ensures edge_after_a_suffix { answer_of Plain (in_function (codes "%1 = phi i32 [ 0, %0 ], !dbg !3, [")) ≡ stops 19 r.Syntax }
    ensures local_as_an_index { answer_of Plain (in_function (codes "%1 = getelementptr i8, ptr null, %x")) ≡ stops 14 r.Syntax }
    ensures wide_index { answer_of Plain (in_function (codes "%1 = getelementptr i8, ptr null, i65 0")) ≡ stops 14 (r.Outside outside.WideInteger) }
{}

/// Debug records.
pub fn records_stand_between()
    ensures before_a_label { answer_of Plain (codes "define void @f() { ret void #dbg_value() l: ret void }") ≡ stops 11 r.Syntax }
    ensures without_brackets { answer_of Plain (in_function (codes "#dbg_value %1")) ≡ stops 7 r.Syntax }
    ensures between_phis { answer_of Plain (codes "define void @f() { br label %1 1: #dbg_a() %2 = phi i32 [ 0, %0 ] #dbg_b(i32 0, !DIExpression()) %3 = phi i32 [ 1, %0 ], [ undef, %x ], !dbg !1 #dbg_c() ret void }") ≡ reads (blocks_of (block 0 (does (op.Br (Number 1)) ∷ []) ∷ block 1 (sets 2 (op.Phi i32 ((int 0, Number 0) ∷ [])) ∷ sets 3 (op.Phi i32 ((int 1, Number 0) ∷ (undef, Text (codes "x")) ∷ [])) ∷ returns ∷ []) ∷ [])) }
    ensures after_a_call { answer_of Plain (in_function (codes "call void @g() #0 #dbgx() #dbg_y(i32 0)")) ≡ reads (function_of (does (op.Call None (Text (codes "g")) []) ∷ returns ∷ [])) }
    ensures attribute_after_it { answer_of Plain (in_function (codes "call void @f() #0 #dbgx() nounwind")) ≡ stops 15 r.Syntax }
    ensures bundle_after_it { answer_of Plain (in_function (codes "call void @f() #dbgx() [")) ≡ stops 14 r.Syntax }
    ensures bundle_after_an_attribute { answer_of Plain (in_function (codes "call void @f() nounwind [ \"x\"() ]")) ≡ stops 12 (r.Outside outside.OperandBundle) }
    ensures bracket_after_a_suffix { answer_of Plain (in_function (codes "call void @f(), !dbg !1 [")) ≡ stops 14 r.Syntax }
{}

/// Calls and declarations, those of `printf` with its dots among them.
pub fn calls_are_judged()
    ensures dots_alone { answer_of Plain (in_function (codes "%1 = call i32 (...) @printf()")) ≡ stops 11 (r.Outside outside.Variadic) }
    ensures type_without_dots { answer_of Plain (in_function (codes "%1 = call i32 (ptr) @printf(ptr null)")) ≡ stops 12 r.Syntax }
    ensures type_of_main { answer_of Plain (in_function (codes "%1 = call i32 (ptr, ...) @main(ptr null)")) ≡ stops 15 (r.Outside outside.CallOfMain) }
    ensures type_of_another { answer_of Plain (in_function (codes "%1 = call i32 (ptr, ...) @__msan_f(ptr null)")) ≡ stops 15 (r.Outside outside.FunctionType) }
    ensures main_in_quotes { answer_of Plain (in_function (codes "%1 = call i32 @\"main\"()")) ≡ stops 10 (r.Outside outside.CallOfMain) }
    ensures type_after_void { answer_of Plain (in_function (codes "call void (ptr, ...) @printf(ptr null)")) ≡ stops 8 (r.Outside outside.FunctionType) }
    ensures tail_without_call { answer_of Plain (in_function (codes "tail ret void")) ≡ stops 7 r.Syntax }
    ensures many_arguments { answer_of Plain (codes "define void @f() { call void @g(i32 0" ++ times 100 (codes ", i32 0") ++ codes ") ret void }") ≡ reads (function_of (does (op.Call None (Text (codes "g")) (copies 101 (i32, int 0))) ∷ returns ∷ [])) }
    ensures declared_dots_alone { answer_of Plain (codes "declare i32 @printf(...)") ≡ stops 4 (r.Outside outside.Variadic) }
    ensures declared_after_a_word { answer_of Plain (codes "declare i32 @printf(i32, ...)") ≡ stops 6 (r.Outside outside.Variadic) }
    ensures declared_after_two { answer_of Plain (codes "declare i32 @printf(ptr, ptr, ...)") ≡ stops 8 (r.Outside outside.Variadic) }
    ensures defined_dots { answer_of Plain (codes "define i32 @printf(ptr, ...) {") ≡ stops 6 (r.Outside outside.Variadic) }
    ensures after_the_dots { answer_of Plain (codes "declare i32 @printf(ptr, ..., i32)") ≡ stops 7 r.Syntax }
    ensures declared_without_a_result { answer_of Plain (codes "declare void @printf(ptr, ...)") ≡ reads (module_of [] (declares (codes "printf") None (ty.Ptr ∷ []) ∷ [])) }
    ensures argument_left_out { answer_of Plain (in_function (codes "call void @g(i32 0, )")) ≡ stops 13 r.Syntax }
{}

/// Types of operands.
pub fn types_must_fit()
    ensures second_of_a_choice { answer_of Plain (in_function (codes "%1 = select i1 true, i32 1, i64 2")) ≡ stops 15 r.Syntax }
    ensures vector_as_second { answer_of Plain (in_function (codes "%1 = select i1 true, i32 1, <2 x i32> undef")) ≡ stops 15 (r.Outside outside.AggregateValue) }
    ensures choice_by_a_byte { answer_of Plain (in_function (codes "%1 = select i8 1, i32 1, i32 2")) ≡ stops 9 r.Syntax }
    ensures branch_on_an_array { answer_of Plain (in_function (codes "br [2 x i1] undef")) ≡ stops 7 r.Syntax }
    ensures switch_of_a_pointer { answer_of Plain (in_function (codes "switch ptr null")) ≡ stops 7 r.Syntax }
    ensures store_of_an_array { answer_of Plain (in_function (codes "store [2 x i8] undef")) ≡ stops 7 (r.Outside outside.AggregateValue) }
    ensures store_to_a_typed_pointer { answer_of Plain (in_function (codes "store i32 0, i32* null")) ≡ stops 10 r.Syntax }
    ensures load_of_a_typed_pointer { answer_of Plain (in_function (codes "%1 = load i32*, ptr null")) ≡ stops 10 (r.Outside outside.TypedPointer) }
    ensures sum_of_pointers { answer_of Plain (in_function (codes "%1 = add ptr null, null")) ≡ stops 9 r.Syntax }
    ensures return_of_a_struct { answer_of Plain (in_function (codes "ret { i8 } undef")) ≡ stops 7 (r.Outside outside.AggregateValue) }
    ensures exact_remainder { answer_of Plain (in_function (codes "%1 = srem exact i8 1, 2")) ≡ stops 9 r.Syntax }
    ensures void_in_a_struct { answer_of Plain (codes "%t = type { void }") ≡ stops 4 r.Syntax }
    ensures name_for_no_struct { answer_of Plain (codes "%t = type [2 x i8]") ≡ stops 3 r.Syntax }
    ensures field_left_out { answer_of Plain (codes "@g = global { i8, } zeroinitializer") ≡ stops 6 r.Syntax }
    ensures definition_after_the_end { answer_of Plain (codes "declare void @f() ret") ≡ stops 5 r.Syntax }
{}

/// Initialisers.
pub fn initialisers_are_read()
    ensures local { answer_of Plain (codes "@g = global i32 %x") ≡ stops 4 r.Syntax }
    ensures fields { answer_of Plain (codes "@g = constant { i8, ptr } { i8 1, ptr null }") ≡ reads (global_of (codes "g") true (ty.Struct false (i8 ∷ ty.Ptr ∷ [])) (init.Struct false ((i8, init.Value (int 1)) ∷ (ty.Ptr, init.Value operand.Null) ∷ []))) }
    ensures packed_fields { answer_of Plain (codes "@g = global <{ i8 }> <{ i8 2 }>") ≡ reads (global_of (codes "g") false (ty.Struct true (i8 ∷ [])) (init.Struct true ((i8, init.Value (int 2)) ∷ []))) }
    ensures items { answer_of Plain (codes "@g = global [2 x i8] [i8 1, i8 undef]") ≡ reads (global_of (codes "g") false (ty.Array 2 i8) (init.Array ((i8, init.Value (int 1)) ∷ (i8, init.Value undef) ∷ []))) }
    ensures no_items { answer_of Plain (codes "@g = global [0 x i8] [ ]") ≡ reads (global_of (codes "g") false (ty.Array 0 i8) (init.Array [])) }
    ensures bytes { answer_of Plain (codes "@g = global [3 x i8] c\"a\\00\\\\\"") ≡ reads (global_of (codes "g") false (ty.Array 3 i8) (init.Text (97 ∷ 0 ∷ 92 ∷ []))) }
    ensures zero_of_a_name { answer_of Plain (codes "@g = global %t zeroinitializer") ≡ reads (global_of (codes "g") false (ty.Named (Text (codes "t"))) init.Zero) }
    ensures vector { answer_of Plain (codes "@g = global i8 <4 x i8>") ≡ stops 5 (r.Outside outside.Vector) }
    ensures base_of_a_step { answer_of Plain (codes "@g = global ptr getelementptr (i8, ptr %h, i64 1)") ≡ stops 9 r.Syntax }
    ensures step_within { answer_of Plain (codes "@g = global ptr getelementptr inbounds ([4 x i32], ptr getelementptr inbounds (%t, ptr @h, i32 0, i32 1), i64 0, i64 3)") ≡ reads (global_of (codes "g") false ty.Ptr (init.Value (operand.Offset (Text (codes "h")) ((ty.Array 4 i32, (i64, 0) ∷ (i64, 3) ∷ []) ∷ (ty.Named (Text (codes "t")), (i32, 0) ∷ (i32, 1) ∷ []) ∷ [])))) }
    ensures null_within { answer_of Plain (codes "@g = global ptr getelementptr (i8, ptr getelementptr (i8, ptr null, i64 1), i64 1)") ≡ stops 14 r.Syntax }
    ensures index_of_a_step { answer_of Plain (codes "@g = global ptr getelementptr (i8, ptr @h, i1 true)") ≡ stops 12 r.Syntax }
    ensures sum_as_a_base { answer_of Plain (codes "@g = global ptr getelementptr (i8, ptr add, i64 1)") ≡ stops 9 r.Syntax }
{}

/// More instructions.
pub fn instructions_are_read()
    ensures steps { answer_of Plain (in_function (codes "%1 = getelementptr inbounds nuw inbounds { i8, [2 x i8] }, ptr null, i64 0, i32 1, i64 undef, !dbg !1")) ≡ reads (line_module (Number 1) (op.Gep (ty.Struct false (i8 ∷ ty.Array 2 i8 ∷ [])) operand.Null ((i64, int 0) ∷ (i32, int 1) ∷ (i64, undef) ∷ []))) }
    ensures switch { answer_of Plain (codes "define void @f() { switch i8 undef, label %1 [ i8 -1, label %1 i8 2, label %x ], !dbg !1 1: unreachable x: ret void }") ≡ reads (blocks_of (block 0 (does (op.Switch i8 undef (Number 1) ((255, Number 1) ∷ (2, Text (codes "x")) ∷ [])) ∷ []) ∷ block 1 (does op.Unreachable ∷ []) ∷ named_block (codes "x") (returns ∷ []) ∷ [])) }
    ensures disjoint { answer_of Plain (in_function (codes "%1 = or disjoint i8 1, 2")) ≡ reads (line_module (Number 1) (op.Binary binary.Or (record no_flags { disjoint = true }) i8 (int 1) (int 2))) }
    ensures exact { answer_of Plain (in_function (codes "%1 = ashr exact i8 4, 1")) ≡ reads (line_module (Number 1) (op.Binary binary.Ashr (record no_flags { exact = true }) i8 (int 4) (int 1))) }
    ensures truncation { answer_of Plain (in_function (codes "%1 = trunc nsw nuw i16 7 to i8")) ≡ reads (line_module (Number 1) (op.Cast cast.Trunc (record no_flags { nuw = true; nsw = true }) i16 (int 7) i8)) }
    ensures choice { answer_of Plain (in_function (codes "%1 = select i1 false, ptr @g, ptr getelementptr (i8, ptr @g, i64 -1)")) ≡ reads (line_module (Number 1) (op.Select (int 0) ty.Ptr (operand.Global (Text (codes "g"))) (operand.Offset (Text (codes "g")) ((i8, (i64, 18446744073709551615) ∷ []) ∷ [])))) }
{}

/// Which limit a token passes where it could pass two, and where a limit ends.
pub fn limits_stand_in_order()
    ensures nested_initialiser { answer_of Plain (codes "@g = global i8 " ++ times 31 (codes "[ i8 ") ++ codes "[ [") ≡ stops 67 (r.Limit limit.Types) }
    ensures constant_indices { answer_of Plain (codes "@g = global ptr getelementptr (i8, ptr @h" ++ times 65 (codes ", i64 0")) ≡ stops 203 (r.Limit limit.Indices) }
    ensures steps_within { answer_of Plain (codes "@g = global ptr " ++ times 64 (codes "getelementptr (i8, ptr ") ++ codes "getelementptr") ≡ stops 324 (r.Limit limit.Indices) }
    ensures nothing_after_100 { answer_of Plain (codes "define void @f(i32" ++ times 99 (codes ", i32") ++ codes ", ) {") ≡ stops 204 r.Syntax }
    ensures array_after_100 { answer_of Plain (codes "define void @f(i32" ++ times 99 (codes ", i32") ++ codes ", [ {") ≡ stops 204 (r.Outside outside.AggregateValue) }
    ensures last_instruction { function_stop Plain 131071 (codes "void @f() { ret void }") ≡ None }
    ensures instruction_too_many { function_stop Plain 131072 (codes "void @f() { ret void }") ≡ Some (5, r.Limit limit.Instructions) }
    ensures second_too_many { function_stop Instrumented 4194303 (codes "void @f() { %1 = alloca i32 ret void }") ≡ Some (9, r.Limit limit.Instructions) }
    ensures instruction_before_name { function_stop Plain 131072 (codes "void @f() { %" ++ times 1025 (codes "a") ++ codes " = alloca i32 }") ≡ Some (5, r.Limit limit.Instructions) }
    ensures number_before_instruction { function_stop Plain 131072 (codes "void @f() { %7 = alloca i32 }") ≡ Some (5, r.Numbering) }
    ensures reserved_before_instruction { function_stop Plain 131072 (codes "void @f() { %__msan.7 = alloca i32 }") ≡ Some (5, r.Reserved) }
    ensures phi_before_instruction { function_stop Plain 131071 (codes "void @f() { alloca i32 phi i32 }") ≡ Some (7, r.Syntax) }
{}

/// Every word of what is left out, alone and at the head of a function.
pub fn words_are_left_out()
    ensures floating_point { constructs_of (codes "half" ∷ codes "bfloat" ∷ codes "float" ∷ codes "double" ∷ codes "fp128" ∷ codes "x86_fp80" ∷ codes "ppc_fp128" ∷ codes "fneg" ∷ codes "fadd" ∷ codes "fsub" ∷ codes "fmul" ∷ codes "fdiv" ∷ codes "frem" ∷ codes "fcmp" ∷ codes "fptrunc" ∷ codes "fpext" ∷ codes "fptoui" ∷ codes "fptosi" ∷ codes "uitofp" ∷ codes "sitofp" ∷ codes "1.5" ∷ codes "-1.5" ∷ codes "0x1p3" ∷ codes "1e5" ∷ []) ++ constructs_of (map at_head (codes "half" ∷ codes "bfloat" ∷ codes "float" ∷ codes "double" ∷ codes "fp128" ∷ codes "x86_fp80" ∷ codes "ppc_fp128" ∷ codes "fneg" ∷ codes "fadd" ∷ codes "fsub" ∷ codes "fmul" ∷ codes "fdiv" ∷ codes "frem" ∷ codes "fcmp" ∷ codes "fptrunc" ∷ codes "fpext" ∷ codes "fptoui" ∷ codes "fptosi" ∷ codes "uitofp" ∷ codes "sitofp" ∷ codes "1.5" ∷ codes "-1.5" ∷ codes "0x1p3" ∷ codes "1e5" ∷ [])) ≡ copies 48 (Some outside.FloatingPoint) }
    ensures vector { constructs_of (codes "extractelement" ∷ codes "insertelement" ∷ codes "shufflevector" ∷ codes "vscale" ∷ []) ++ constructs_of (map at_head (codes "extractelement" ∷ codes "insertelement" ∷ codes "shufflevector" ∷ codes "vscale" ∷ [])) ≡ copies 8 (Some outside.Vector) }
    ensures wide_integer { constructs_of (codes "i65" ∷ codes "i128" ∷ codes "i18446744073709551617" ∷ codes "18446744073709551616" ∷ codes "-9223372036854775809" ∷ []) ++ constructs_of (map at_head (codes "i65" ∷ codes "i128" ∷ codes "i18446744073709551617" ∷ codes "18446744073709551616" ∷ codes "-9223372036854775809" ∷ [])) ≡ copies 10 (Some outside.WideInteger) }
    ensures address_space { constructs_of (codes "addrspace" ∷ codes "addrspacecast" ∷ []) ++ constructs_of (map at_head (codes "addrspace" ∷ codes "addrspacecast" ∷ [])) ≡ copies 4 (Some outside.AddressSpace) }
    ensures thread_local { constructs_of (codes "thread_local" ∷ []) ++ constructs_of (map at_head (codes "thread_local" ∷ [])) ≡ copies 2 (Some outside.ThreadLocal) }
    ensures aggregate_value { constructs_of (codes "insertvalue" ∷ codes "extractvalue" ∷ []) ++ constructs_of (map at_head (codes "insertvalue" ∷ codes "extractvalue" ∷ [])) ≡ copies 4 (Some outside.AggregateValue) }
    ensures by_value { constructs_of (codes "byval" ∷ codes "inalloca" ∷ codes "preallocated" ∷ codes "byref" ∷ codes "swifterror" ∷ []) ++ constructs_of (map at_head (codes "byval" ∷ codes "inalloca" ∷ codes "preallocated" ∷ codes "byref" ∷ codes "swifterror" ∷ [])) ≡ copies 10 (Some outside.ByValue) }
    ensures variadic { constructs_of (codes "..." ∷ []) ++ constructs_of (map at_head (codes "..." ∷ [])) ≡ copies 2 (Some outside.Variadic) }
    ensures exceptions { constructs_of (codes "invoke" ∷ codes "landingpad" ∷ codes "resume" ∷ codes "catchswitch" ∷ codes "catchpad" ∷ codes "cleanuppad" ∷ codes "catchret" ∷ codes "cleanupret" ∷ codes "personality" ∷ codes "callbr" ∷ []) ++ constructs_of (map at_head (codes "invoke" ∷ codes "landingpad" ∷ codes "resume" ∷ codes "catchswitch" ∷ codes "catchpad" ∷ codes "cleanuppad" ∷ codes "catchret" ∷ codes "cleanupret" ∷ codes "personality" ∷ codes "callbr" ∷ [])) ≡ copies 20 (Some outside.Exceptions) }
    ensures assembly { constructs_of (codes "asm" ∷ codes "module" ∷ []) ++ constructs_of (map at_head (codes "asm" ∷ codes "module" ∷ [])) ≡ copies 4 (Some outside.Assembly) }
    ensures indirect_branch { constructs_of (codes "indirectbr" ∷ codes "blockaddress" ∷ []) ++ constructs_of (map at_head (codes "indirectbr" ∷ codes "blockaddress" ∷ [])) ≡ copies 4 (Some outside.IndirectBranch) }
    ensures atomics { constructs_of (codes "atomic" ∷ codes "cmpxchg" ∷ codes "atomicrmw" ∷ codes "fence" ∷ []) ++ constructs_of (map at_head (codes "atomic" ∷ codes "cmpxchg" ∷ codes "atomicrmw" ∷ codes "fence" ∷ [])) ≡ copies 8 (Some outside.Atomics) }
    ensures volatile { constructs_of (codes "volatile" ∷ []) ++ constructs_of (map at_head (codes "volatile" ∷ [])) ≡ copies 2 (Some outside.Volatile) }
    ensures variable_arguments { constructs_of (codes "va_arg" ∷ []) ++ constructs_of (map at_head (codes "va_arg" ∷ [])) ≡ copies 2 (Some outside.VariableArguments) }
    ensures alias { constructs_of (codes "alias" ∷ codes "ifunc" ∷ []) ++ constructs_of (map at_head (codes "alias" ∷ codes "ifunc" ∷ [])) ≡ copies 4 (Some outside.Alias) }
    ensures comdat { constructs_of (codes "comdat" ∷ codes "$x" ∷ codes "$" ∷ []) ++ constructs_of (map at_head (codes "comdat" ∷ codes "$x" ∷ codes "$" ∷ [])) ≡ copies 6 (Some outside.Comdat) }
    ensures opaque_type { constructs_of (codes "opaque" ∷ []) ++ constructs_of (map at_head (codes "opaque" ∷ [])) ≡ copies 2 (Some outside.OpaqueType) }
    ensures typed_pointer { constructs_of (codes "*" ∷ []) ++ constructs_of (map at_head (codes "*" ∷ [])) ≡ copies 2 (Some outside.TypedPointer) }
    ensures metadata_operand { constructs_of (codes "metadata" ∷ []) ++ constructs_of (map at_head (codes "metadata" ∷ [])) ≡ copies 2 (Some outside.MetadataOperand) }
    ensures external_alone { constructs_of (codes "external" ∷ codes "extern_weak" ∷ []) ≡ None ∷ None ∷ [] }
    ensures external_of_a_global { constructs_of (codes "@g = external" ∷ codes "@g = foo extern_weak" ∷ []) ≡ copies 2 (Some outside.ExternalGlobal) }
{}

/// Every word with a place of its own is no attribute.
pub fn words_are_no_attributes()
    ensures quoted { map (λ word. answer_of Plain (at_head word)) quoted_words ≡ copies 59 (stops 5 r.Syntax) }
    ensures align_without_a_number { answer_of Plain (at_head (codes "align")) ≡ stops 6 r.Syntax }
{}

/// Which operations may carry a flag.
pub fn flags_are_carried()
    ensures nuw { carriers (codes "nuw") ≡ codes "add" ∷ codes "sub" ∷ codes "mul" ∷ codes "shl" ∷ codes "trunc" ∷ [] }
    ensures nsw { carriers (codes "nsw") ≡ codes "add" ∷ codes "sub" ∷ codes "mul" ∷ codes "shl" ∷ codes "trunc" ∷ [] }
    ensures exact { carriers (codes "exact") ≡ codes "lshr" ∷ codes "ashr" ∷ codes "udiv" ∷ codes "sdiv" ∷ [] }
    ensures disjoint { carriers (codes "disjoint") ≡ codes "or" ∷ [] }
    ensures nneg { carriers (codes "nneg") ≡ codes "zext" ∷ [] }
    ensures samesign { carriers (codes "samesign") ≡ codes "icmp" ∷ [] }
    ensures inbounds { carriers (codes "inbounds") ≡ [] }
{}

/// How many functions, declarations and globals there may be.
pub fn entities_are_counted()
    ensures last_function { entity_begins Plain (with_declarations 16383) (lexeme k.Word (codes "define")) ≡ Ok true }
    ensures function_too_many { entity_begins Plain (with_declarations 16384) (lexeme k.Word (codes "define")) ≡ Err (r.Limit limit.Functions) }
    ensures declaration_too_many { entity_begins Instrumented (with_declarations 16384) (lexeme k.Word (codes "declare")) ≡ Err (r.Limit limit.Functions) }
    ensures last_global { entity_begins Plain (with_globals 16383) (lexeme k.Global (codes "@g")) ≡ Ok true }
    ensures global_too_many { entity_begins Plain (with_globals 16384) (lexeme k.Global (codes "@g")) ≡ Err (r.Limit limit.Globals) }
    ensures global_before_name { entity_begins Plain (with_globals 16384) (lexeme k.Global (64 ∷ times 1025 (codes "a"))) ≡ Err (r.Limit limit.Globals) }
    ensures reserved_before_global { entity_begins Plain (with_globals 16384) (lexeme k.Global (codes "@__msan")) ≡ Err r.Reserved }
{}
