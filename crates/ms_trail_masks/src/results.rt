//! The mask of the result of code that looks at words alone, whichever code it is. For traced runs of `explain`.
ghost use Rattle.std.specs.Prelude.{length};
ghost use Rattle.ms_trail_masks.specs.{Views.{IsView}, Results.{IsComputed, IsMask}};

use crate::addresses::address_mask;
use crate::masks::{binary_mask, cast_mask};
use crate::words::{View, read_word};
use crate::{compare_mask, select_mask};
use ms_machine_code::Code;

/// The mask of the result of an operation, a comparison, a cast, a selection, a `getelementptr` or a `freeze`.
pub fn computed(view: &View<'_>, code: &Code) -> u64
    requires view { IsView view.now }
    requires computed { IsComputed (length view.now.values.now) code.now }
    ensures { IsMask view.now.fill.now view.now.values.now view.now.masks.now code.now result }
{
    match code {
        Code::Binary {
            op,
            width,
            a,
            b,
            ..
        } => {
            let a = read_word(view, *width, *a);
            let b = read_word(view, *width, *b);
            binary_mask(*op, *width, a, b)
        }
        Code::Icmp {
            pred,
            width,
            a,
            b,
            ..
        } => {
            let a = read_word(view, *width, *a);
            let b = read_word(view, *width, *b);
            compare_mask(*pred, *width, a.value, a.mask, b.value, b.mask)
        }
        Code::Cast {
            op,
            width,
            a,
            into,
            ..
        } => cast_mask(*op, *width, read_word(view, *width, *a), *into),
        Code::Select { cond, a, b, .. } => {
            let cond = read_word(view, 64, *cond);
            let a = read_word(view, 64, *a);
            let b = read_word(view, 64, *b);
            select_mask(cond.value, cond.mask, a.value, a.mask, b.value, b.mask)
        }
        Code::Gep { base, strides, .. } => address_mask(view, *base, strides.as_slice()),
        _ => 0,
    }
}
