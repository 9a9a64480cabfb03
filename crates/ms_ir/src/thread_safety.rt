//! A module may be sent to another thread, and shared with one.

use crate::calls::{External, RuntimeFn, Slot};
use crate::places::{Place, Root, RootKind};
use crate::syntax::{Block, Decl, Func, GlobalVar, Init, Inst, Module, Name, Op, Operand, Ty};
use ms_bits::thread_safety::law_shared;

/// Each type of a module may cross threads.
pub fn law_module_is_shared() {
    law_shared::<Name>();
    law_shared::<Ty>();
    law_shared::<Operand>();
    law_shared::<Init>();
    law_shared::<Op>();
    law_shared::<Inst>();
    law_shared::<Block>();
    law_shared::<Func>();
    law_shared::<Decl>();
    law_shared::<GlobalVar>();
    law_shared::<Module>();
}

/// So may what is numbered in it and what it calls.
pub fn law_parts_are_shared() {
    law_shared::<RootKind>();
    law_shared::<Root>();
    law_shared::<Place>();
    law_shared::<External>();
    law_shared::<RuntimeFn>();
    law_shared::<Slot>();
}
