//! What modules are written as: laws about the definitions, computed by the prover. The texts are worked out by hand from the
//! rules of the layout, and none is taken from a program.
ghost use Rattle.std.specs.Prelude.{◌≡◌, [], ◌∷◌, codes};
ghost use Rattle.ms_ir.specs.declared.syntax.Ty as ty;
ghost use Rattle.ms_runs_examples.specs.Externals.{chooses, swaps, odd_width, with_globals, inner_word};
ghost use Rattle.ms_runs_examples.specs.Marks.{branch_on_unset_checked, nested_call_checked};
ghost use Rattle.ms_runs_examples.specs.Programs.{returns_zero, branch_on_unset, masked_to_zero, ordered_compare, set_bit_is_not_zero, select_undef, two_unset, shared_cell, lost_in_addition, recursion, nested_call, write_with_gap, store_to_shadow, clang_unoptimised, store_and_load, sum_wraps, undef_divisor, frozen, three_branches, undef_sum, undef_stored, carry_of_undef};
ghost use Rattle.ms_ir.specs.{Builders.{i32}, declared.forms.Form.TheVariants.{Instrumented}};
ghost use Rattle.ms_text_grammar.specs.Answers.{answer_of, reads};
ghost use Rattle.ms_runs_examples.specs.Texts.{lines, branch_on_unset_text, masked_to_zero_text, ordered_compare_text, select_undef_text, recursion_text, nested_call_text, store_to_shadow_text};
ghost use Rattle.ms_runs_examples.specs.WrittenModules.{odd_names, many_parts, marked_parts, calls_printf, printf_call, printf_effect};
ghost use Rattle.ms_text_grammar.specs.LayoutModules.{written};

/// Modules as they are written.
pub fn modules_are_written()
    ensures returns_zero { written returns_zero ≡ lines (codes "define i32 @main() {" ∷ codes "  ret i32 0" ∷ codes "}" ∷ []) }
    ensures odd_names { written odd_names ≡ lines (
        codes "%\"a b\" = type { i8 }"
        ∷ codes "@.str = constant [ 7 x i8 ] c\"a\\22\\5C\\0A\\00~\\FF\""
        ∷ codes "@\"1st\" = global i8 0"
        ∷ codes "@\"\" = global ptr @.str"
        ∷ codes "@\"\\C8~\\7F\" = global %\"a b\" zeroinitializer"
        ∷ codes "@-5 = global i8 -128"
        ∷ codes "define void @\"two words\"(ptr %\"p\\22q\", i32 %x_1$) {"
        ∷ codes "\"en try\":"
        ∷ codes "  %\"5\" = add i32 %x_1$, 5"
        ∷ codes "  store i32 %\"5\", ptr %\"p\\22q\""
        ∷ codes "  br label %c"
        ∷ codes "c:"
        ∷ codes "  ret void"
        ∷ codes "}" ∷ []) }
    ensures many_parts { written many_parts ≡ lines (
        codes "%pair = type { i32, [ 2 x i8 ] }"
        ∷ codes "%0 = type < { i8, ptr } >"
        ∷ codes "%none = type { }"
        ∷ codes "@g = global %pair { i32 -1, [ 2 x i8 ] [ i8 1, i8 undef ] }"
        ∷ codes "@h = constant < { i8 } > < { i8 2 } >"
        ∷ codes "@no_items = global [ 0 x i8 ] [ ]"
        ∷ codes "@no_fields = global { } { }"
        ∷ codes "@bit = global i1 true"
        ∷ codes "@step = global ptr getelementptr (%pair, ptr @g, i64 -1, i32 1, i1 -1)"
        ∷ codes "@within = global ptr getelementptr ([ 2 x i8 ], ptr getelementptr (%pair, ptr @g, i32 0, i32 1), i64 0, i64 1)"
        ∷ codes "declare i32 @printf(ptr, ...)"
        ∷ codes "declare void @free(ptr)"
        ∷ codes "declare ptr @malloc(i64)"
        ∷ codes "define i32 @main() {"
        ∷ codes "  switch i8 undef, label %1 [ i8 -1, label %2 i8 2, label %x ]"
        ∷ codes "1:"
        ∷ codes "  switch i1 true, label %2 [ i1 -1, label %x i1 0, label %2 ]"
        ∷ codes "2:"
        ∷ codes "  %3 = phi i32 [ 0, %0 ], [ -2, %1 ]"
        ∷ codes "  %4 = phi ptr [ @g, %0 ], [ null, %1 ]"
        ∷ codes "  %5 = call i32 (ptr, ...) @printf(ptr @g, i32 %3)"
        ∷ codes "  call void @free(ptr %4)"
        ∷ codes "  switch i64 0, label %x [ ]"
        ∷ codes "x:"
        ∷ codes "  ret i32 0"
        ∷ codes "}" ∷ []) }
    ensures marked_parts { written marked_parts ≡ lines (
        codes "@__msan_retval_tls = global i64 0"
        ∷ codes "declare i32 @putchar(i32)"
        ∷ codes "declare void @__msan_check(i64, i32, i32, i32, i32, i32)"
        ∷ codes "declare i32 @__msan_load_origin(ptr, i64)"
        ∷ codes "define i32 @main() {"
        ∷ codes "  %1 = alloca i32"
        ∷ codes "  %2 = alloca [ 8 x i8 ], i64 1"
        ∷ codes "  %__msan.0 = ptrtoint ptr %1 to i64, !nosanitize !0"
        ∷ codes "  %__msan.1 = xor i64 %__msan.0, 87960930222080, !nosanitize !0"
        ∷ codes "  %__msan.2 = call i32 @__msan_load_origin(ptr %1, i64 %__msan.0), !nosanitize !0"
        ∷ codes "  call void @__msan_check(i64 %__msan.0, i32 32, i32 1, i32 3, i32 0, i32 3), !nosanitize !0"
        ∷ codes "  %3 = load i32, ptr %1"
        ∷ codes "  store i64 0, ptr @__msan_retval_tls, !nosanitize !0"
        ∷ codes "  %4 = add nuw nsw i32 %3, 1"
        ∷ codes "  %5 = ashr exact i32 %4, 1"
        ∷ codes "  %6 = or disjoint i32 %5, poison"
        ∷ codes "  %7 = trunc nsw i32 %6 to i16"
        ∷ codes "  %8 = zext nneg i16 %7 to i64"
        ∷ codes "  %9 = icmp samesign ule i64 %8, -9223372036854775808"
        ∷ codes "  %10 = select i1 false, i1 %9, i1 true"
        ∷ codes "  %11 = freeze ptr %2"
        ∷ codes "  %12 = getelementptr [ 8 x i8 ], ptr %11, i64 0, i1 true, i64 %8"
        ∷ codes "  store i8 127, ptr %12"
        ∷ codes "  br i1 %10, label %13, label %14"
        ∷ codes "13:"
        ∷ codes "  unreachable"
        ∷ codes "14:"
        ∷ codes "  %15 = call i32 @putchar(i32 65)"
        ∷ codes "  ret i32 %15"
        ∷ codes "}"
        ∷ codes "!0 = !{}" ∷ []) }
{}

/// What is written is read as the module that it was written of.
pub fn modules_are_read_back()
    ensures odd_names { answer_of Instrumented (written odd_names) ≡ reads odd_names }
    ensures many_parts { answer_of Instrumented (written many_parts) ≡ reads many_parts }
    ensures marked_parts { answer_of Instrumented (written marked_parts) ≡ reads marked_parts }
{}

/// Example modules whose texts stand in the layout are written as these texts.
pub fn laid_out_texts_are_written()
    ensures branch_on_unset { written branch_on_unset ≡ branch_on_unset_text }
    ensures masked_to_zero { written masked_to_zero ≡ masked_to_zero_text }
    ensures ordered_compare { written (ordered_compare 16) ≡ ordered_compare_text }
    ensures select_undef { written select_undef ≡ select_undef_text }
    ensures recursion { written (recursion 1023) ≡ recursion_text }
    ensures nested_call { written nested_call ≡ nested_call_text }
    ensures store_to_shadow { written store_to_shadow ≡ store_to_shadow_text }
{}

/// Dots stand in a declaration of `printf` with the result `i32` and one pointer, and then in a call with the result `i32`.
pub fn dots_are_written()
    ensures one_pointer { written (calls_printf (ty.Ptr ∷ []) printf_call) ≡ lines (
        codes "declare i32 @printf(ptr, ...)"
        ∷ codes "define i32 @main() {"
        ∷ codes "  %1 = call i32 (ptr, ...) @printf(ptr null)"
        ∷ codes "  ret i32 0"
        ∷ codes "}" ∷ []) }
    ensures call_without_a_result { written (calls_printf (ty.Ptr ∷ []) printf_effect) ≡ lines (
        codes "declare i32 @printf(ptr, ...)"
        ∷ codes "define i32 @main() {"
        ∷ codes "  call void @printf(ptr null)"
        ∷ codes "  ret i32 0"
        ∷ codes "}" ∷ []) }
    ensures two_parameters { written (calls_printf (ty.Ptr ∷ i32 ∷ []) printf_call) ≡ lines (
        codes "declare i32 @printf(ptr, i32)"
        ∷ codes "define i32 @main() {"
        ∷ codes "  %1 = call i32 @printf(ptr null)"
        ∷ codes "  ret i32 0"
        ∷ codes "}" ∷ []) }
{}

/// Each example module whose numbers are successive is read back.
pub fn examples_are_read_back()
    ensures returns_zero { answer_of Instrumented (written returns_zero) ≡ reads returns_zero }
    ensures branch_on_unset { answer_of Instrumented (written branch_on_unset) ≡ reads branch_on_unset }
    ensures masked_to_zero { answer_of Instrumented (written masked_to_zero) ≡ reads masked_to_zero }
    ensures ordered_compare { answer_of Instrumented (written (ordered_compare 16)) ≡ reads (ordered_compare 16) }
    ensures set_bit_is_not_zero { answer_of Instrumented (written set_bit_is_not_zero) ≡ reads set_bit_is_not_zero }
    ensures select_undef { answer_of Instrumented (written select_undef) ≡ reads select_undef }
    ensures two_unset { answer_of Instrumented (written two_unset) ≡ reads two_unset }
    ensures shared_cell { answer_of Instrumented (written shared_cell) ≡ reads shared_cell }
    ensures lost_in_addition { answer_of Instrumented (written lost_in_addition) ≡ reads lost_in_addition }
    ensures recursion { answer_of Instrumented (written (recursion 1023)) ≡ reads (recursion 1023) }
    ensures nested_call { answer_of Instrumented (written nested_call) ≡ reads nested_call }
    ensures write_with_gap { answer_of Instrumented (written write_with_gap) ≡ reads write_with_gap }
    ensures store_to_shadow { answer_of Instrumented (written store_to_shadow) ≡ reads store_to_shadow }
    ensures clang_unoptimised { answer_of Instrumented (written clang_unoptimised) ≡ reads clang_unoptimised }
    ensures store_and_load { answer_of Instrumented (written (store_and_load [])) ≡ reads (store_and_load []) }
    ensures sum_wraps { answer_of Instrumented (written sum_wraps) ≡ reads sum_wraps }
    ensures undef_divisor { answer_of Instrumented (written undef_divisor) ≡ reads undef_divisor }
    ensures frozen { answer_of Instrumented (written frozen) ≡ reads frozen }
    ensures three_branches { answer_of Instrumented (written three_branches) ≡ reads three_branches }
    ensures undef_sum { answer_of Instrumented (written undef_sum) ≡ reads undef_sum }
    ensures undef_stored { answer_of Instrumented (written undef_stored) ≡ reads undef_stored }
    ensures carry_of_undef { answer_of Instrumented (written carry_of_undef) ≡ reads carry_of_undef }
    ensures chooses { answer_of Instrumented (written (chooses 2)) ≡ reads (chooses 2) }
    ensures swaps { answer_of Instrumented (written swaps) ≡ reads swaps }
    ensures odd_width { answer_of Instrumented (written odd_width) ≡ reads odd_width }
    ensures with_globals { answer_of Instrumented (written (with_globals inner_word)) ≡ reads (with_globals inner_word) }
    ensures branch_on_unset_checked { answer_of Instrumented (written branch_on_unset_checked) ≡ reads branch_on_unset_checked }
    ensures nested_call_checked { answer_of Instrumented (written nested_call_checked) ≡ reads nested_call_checked }
{}
