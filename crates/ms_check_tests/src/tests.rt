//! The tables of whole modules, as tests by what the check returns on them.

use crate::answers::all_agree;
use crate::{edges, externals, marks, names, order, types, uses};
use std::test::Fail;

#[test]
fn names_and_uses_are_known(rt: HostRuntime) -> Result<(), Fail> {
    assert!(rt;
        all_agree(
            &rt,
            rt.alloc(),
            &[
                &names::DUPLICATES,
                &names::UNKNOWNS,
                &uses::USES,
                &edges::EDGES,
                &edges::MAINS
            ]
        )
    );
    Ok(())
}

#[test]
fn types_externals_and_marks_fit(rt: HostRuntime) -> Result<(), Fail> {
    assert!(rt;
        all_agree(
            &rt,
            rt.alloc(),
            &[
                &types::TERMINATORS,
                &externals::EXTERNALS,
                &externals::SLOTS,
                &marks::MARKS,
                &order::ORDERS
            ]
        )
    );
    Ok(())
}
