//! Modules that are read, refused, written and read back.

use crate::cases::{
    ENTITY, LAST, LINE, WHOLE, all_agree, all_tables_agree, differs, fails, is_other, rewritten,
};
use crate::{bodies, entities, instructions, layouts, other_layouts};
use ms_ir::Form;
use std::alloc::Global;
use std::test::Fail;

/// Texts that are written as they are read.
static LAYOUTS: [&str; 10] = [
    layouts::ODD_NAMES,
    layouts::MANY_PARTS,
    layouts::RETURNS_ZERO,
    layouts::BRANCH_ON_UNSET,
    layouts::MASKED_TO_ZERO,
    layouts::ORDERED_COMPARE,
    layouts::SELECT_UNDEF,
    layouts::RECURSION,
    layouts::NESTED_CALL,
    layouts::STORE_TO_SHADOW,
];

/// One with inserted code.
static MARKED_LAYOUTS: [&str; 1] = [layouts::MARKED_PARTS];

/// Texts that are written otherwise than they are read.
static OTHER_LAYOUTS: [&str; 5] = [
    other_layouts::SHARED_CELL,
    other_layouts::LOST_IN_ADDITION,
    other_layouts::WRITE_WITH_GAP,
    other_layouts::USE_BEFORE_DEFINITION,
    other_layouts::CLANG_UNOPTIMISED,
];

/// Whether a text is that of its module.
fn is_layout<R: Eprint>(rt: &R, alloc: Global, text: &[u8], form: Form) -> bool {
    match rewritten(alloc, text, form) {
        Ok(written) => written.as_slice() == text || is_other(rt, text, &written),
        Err(error) => differs(rt, "a text in the writer's layout", &"itself", &error),
    }
}

fn all_layouts<R: Eprint>(rt: &R, alloc: Global, texts: &[&str], form: Form) -> bool {
    for (number, text) in texts.iter().enumerate() {
        if !is_layout(rt, alloc, text.as_bytes(), form) {
            return fails(rt, "text", number);
        }
    }
    true
}

/// Whether what is written of a text's module is read back as that module: modules that are written alike are equal.
fn is_read_back<R: Eprint>(rt: &R, alloc: Global, text: &[u8]) -> bool {
    match rewritten(alloc, text, Form::Plain) {
        Ok(written) => is_layout(rt, alloc, &written, Form::Instrumented),
        Err(error) => differs(rt, "a text", &"a module", &error),
    }
}

fn all_read_back<R: Eprint>(rt: &R, alloc: Global, texts: &[&str]) -> bool {
    for (number, text) in texts.iter().enumerate() {
        if !is_read_back(rt, alloc, text.as_bytes()) {
            return fails(rt, "text", number);
        }
    }
    true
}

#[test]
fn layouts_are_kept_and_read_back(rt: HostRuntime) -> Result<(), Fail> {
    assert!(rt;
        all_layouts(&rt, rt.alloc(), &LAYOUTS, Form::Plain)
            && all_layouts(&rt, rt.alloc(), &MARKED_LAYOUTS, Form::Instrumented)
            && all_read_back(&rt, rt.alloc(), &OTHER_LAYOUTS)
            && all_read_back(&rt, rt.alloc(), &LAYOUTS)
    );
    Ok(())
}

#[test]
fn instructions_are_read(rt: HostRuntime) -> Result<(), Fail> {
    assert!(rt;
        all_tables_agree(
            &rt,
            rt.alloc(),
            &LINE,
            &[
                &instructions::COMPUTATIONS,
                &instructions::MEMORY,
                &instructions::CALLS,
                &instructions::SUFFIXES
            ]
        ) && all_agree(&rt, rt.alloc(), &LAST, &instructions::TERMINATORS)
    );
    Ok(())
}

#[test]
fn lines_of_entities_are_read(rt: HostRuntime) -> Result<(), Fail> {
    assert!(rt;
        all_tables_agree(
            &rt,
            rt.alloc(),
            &ENTITY,
            &[&entities::GLOBALS, &entities::VALUES, &entities::TYPES]
        )
    );
    Ok(())
}

#[test]
fn texts_are_read(rt: HostRuntime) -> Result<(), Fail> {
    assert!(rt;
        all_tables_agree(
            &rt,
            rt.alloc(),
            &WHOLE,
            &[
                &entities::ENTITIES,
                &bodies::FUNCTIONS,
                &bodies::MARKS,
                &bodies::SKIPPED,
                &bodies::LEFT_OUT
            ]
        )
    );
    Ok(())
}
