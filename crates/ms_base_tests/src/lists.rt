//! Lists, boxes and texts: orders worked out by hand, and copies that equal their source.

use crate::rows::{fails, is};
use ms_bits::thread_safety::{law_all_shared, law_boxed_is_shared, law_list_is_shared};
use ms_bits::{
    BinOp, Boxed, Bytes, CastOp, Duplicate, Flags, List, NoMemory, Pred, Text, Trap,
    law_bytes_in_range, law_words_in_range,
};
use std::alloc::Global;
use std::cmp::Ordering;
use std::fmt::Debug;
use std::test::Fail;

/// Two lists of bytes, and their order.
struct Ordered(&'static [u8], &'static [u8], Ordering);

/// Lists are ordered by their first difference.
static ORDERS: [Ordered; 8] = [
    Ordered(&[], &[], Ordering::Equal),
    Ordered(&[], &[0], Ordering::Less),
    Ordered(&[7, 8], &[7, 8], Ordering::Equal),
    Ordered(&[7, 8], &[7, 9], Ordering::Less),
    Ordered(&[7, 8], &[7], Ordering::Greater),
    Ordered(&[255], &[1, 0], Ordering::Greater),
    Ordered(&[1, 0], &[255], Ordering::Less),
    Ordered(&[0], &[], Ordering::Greater),
];

/// Texts keep their bytes.
static TEXTS: [&str; 4] = ["", "a", "main.0", "ä\n"];

fn list(alloc: Global, items: &[u8]) -> Result<Bytes, NoMemory> {
    Ok(List::from_vec(items.to_vec(alloc)?))
}

/// Whether a copy is made, and equals its source.
fn is_copied<R: Eprint, T: Duplicate + PartialEq + Debug>(
    rt: &R,
    alloc: Global,
    value: &T,
) -> bool {
    match value.copy(alloc) {
        Ok(copy) => is(rt, &copy, value),
        Err(_) => false,
    }
}

/// Whether two values have this order.
fn is_ordered<R: Eprint, T: Ord>(rt: &R, a: &T, b: &T, order: Ordering) -> bool {
    is(rt, &a.cmp(b), &order)
        && is(rt, &a.partial_cmp(b), &Some(order))
        && is(rt, &(*a == *b), &(order == Ordering::Equal))
}

fn boxes_are_compared<R: Eprint>(rt: &R, alloc: Global, a: Bytes, b: Bytes, row: &Ordered) -> bool {
    match (Boxed::new(alloc, a), Boxed::new(alloc, b)) {
        (Ok(a), Ok(b)) => {
            let same = a == b;
            is(rt, &same, &(row.2 == Ordering::Equal))
                && is_copied(rt, alloc, &a)
                && a.get().as_slice() == row.0
        }
        _ => false,
    }
}

/// Whether the two lists of a row are ordered so, and are copied.
fn agrees<R: Eprint>(rt: &R, alloc: Global, row: &Ordered) -> bool {
    match (list(alloc, row.0), list(alloc, row.1)) {
        (Ok(a), Ok(b)) => {
            law_bytes_in_range(&a);
            is_ordered(rt, &a, &b, row.2)
                && is_copied(rt, alloc, &a)
                && a.as_slice() == row.0
                && boxes_are_compared(rt, alloc, a, b, row)
        }
        _ => false,
    }
}

fn all_agree<R: Eprint>(rt: &R, alloc: Global, rows: &[Ordered]) -> bool {
    for (number, row) in rows.iter().enumerate() {
        if !agrees(rt, alloc, row) {
            return fails(rt, number);
        }
    }
    true
}

/// Copies of the types that are no list.
fn small_values_are_copied<R: Eprint>(rt: &R, alloc: Global) -> bool {
    let flags = Flags {
        nuw: true,
        nsw: false,
        exact: true,
        disjoint: false,
        nneg: true,
        samesign: false,
    };
    is_copied(rt, alloc, &flags)
        && is_copied(rt, alloc, &(7u8, 8u64))
        && is_copied(rt, alloc, &(9u32, true))
        && is_copied(rt, alloc, &Some(7u8))
        && is_copied(rt, alloc, &None::<u8>)
        && is_copied(rt, alloc, &BinOp::Ashr)
        && is_copied(rt, alloc, &Pred::Sle)
        && is_copied(rt, alloc, &CastOp::Sext)
        && is_copied(rt, alloc, &Trap::Nuw)
}

/// Whether a list of words is copied, and gives its items back.
fn words_are_copied<R: Eprint>(rt: &R, alloc: Global) -> bool {
    match vec![in alloc; 1u64, 2u64] {
        Ok(items) => {
            let words = List::from_vec(items);
            law_words_in_range(&words);
            is_copied(rt, alloc, &words) && words.into_vec().as_slice() == [1u64, 2u64].as_slice()
        }
        Err(_) => false,
    }
}

/// Whether a text keeps its bytes.
fn is_kept<R: Eprint>(rt: &R, alloc: Global, text: &str) -> bool {
    match text.to_string(alloc) {
        Ok(owned) => is(rt, &Text::from_string(owned).as_str(), &text),
        Err(_) => false,
    }
}

fn all_kept<R: Eprint>(rt: &R, alloc: Global, texts: &[&str]) -> bool {
    for (number, text) in texts.iter().enumerate() {
        if !is_kept(rt, alloc, text) {
            return fails(rt, number);
        }
    }
    true
}

#[test]
fn all_types_cross_threads() {
    law_all_shared();
    law_list_is_shared::<u64>();
    law_boxed_is_shared::<Bytes>();
}

#[test]
fn lists_are_compared_and_copied(rt: HostRuntime) -> Result<(), Fail> {
    assert!(rt;
        all_agree(&rt, rt.alloc(), &ORDERS)
            && small_values_are_copied(&rt, rt.alloc())
            && words_are_copied(&rt, rt.alloc())
            && all_kept(&rt, rt.alloc(), &TEXTS)
    );
    Ok(())
}
