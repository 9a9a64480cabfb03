//! The locals that the instructions and the debug records of a text are about: `%x` of `%x = alloca ..`, `store .. ptr %x` and
//! `#dbg_declare(ptr %x, ..)`.

ghost use Rattle.std.specs.{Prelude.{◌≡◌}, Option.{option_copied}};
ghost use Rattle.ms_where.specs.Variables as spec;

use ms_where_places::{Mark, MarkKind, MarkedText};

/// The token after the last of a mark's tokens that is spelled `ptr`.
fn after_ptr(marked: &MarkedText<'_>, mark: &Mark) -> Option<usize>
    ensures { result ≡ spec.after_ptr marked.now mark.now }
{
    let mut after = None;
    for number in mark.first as usize..mark.after as usize {
        if marked.is_spelled(b"ptr", number) {
            after = Some(number + 1);
        }
    }
    after
}

/// Where `store .. ptr %x ..` stores.
fn stored_at<'a>(marked: &MarkedText<'a>, mark: &Mark) -> Option<&'a [u8]>
    ensures { option_copied result ≡ spec.stored_at marked.now mark.now }
{
    if !marked.is_spelled(b"store", mark.first as usize) {
        return None;
    }
    match after_ptr(marked, mark) {
        None => None,
        Some(number) => Some(marked.spelling(number)),
    }
}

/// Whether the mark is `%x = alloca ..`.
fn makes_room(marked: &MarkedText<'_>, mark: &Mark) -> bool
    ensures { result ≡ spec.makes_room marked.now mark.now }
{
    let first = mark.first as usize;
    marked.is_spelled(b"=", first + 1) && marked.is_spelled(b"alloca", first + 2)
}

/// The local that an instruction makes room for or stores to.
pub fn local_of<'a>(marked: &MarkedText<'a>, mark: &Mark) -> Option<&'a [u8]>
    ensures { option_copied result ≡ spec.local_of marked.now mark.now }
{
    match mark.kind {
        MarkKind::Instruction => {
            if makes_room(marked, mark) {
                Some(marked.spelling(mark.first as usize))
            } else {
                stored_at(marked, mark)
            }
        }
        _ => None,
    }
}

/// The address of the variable that a record declares, as in `#dbg_declare(ptr %x, ..)`.
pub fn declared_in<'a>(marked: &MarkedText<'a>, mark: &Mark) -> Option<&'a [u8]>
    ensures { option_copied result ≡ spec.declared_in marked.now mark.now }
{
    match mark.kind {
        MarkKind::Record => {
            let first = mark.first as usize;
            if marked.is_spelled(b"#dbg_declare", first) {
                Some(marked.spelling(first + 3))
            } else {
                None
            }
        }
        _ => None,
    }
}
