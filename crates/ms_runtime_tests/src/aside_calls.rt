//! What `check` says of calls of intrinsics that compilers write beside a program's own calls. Worked out by hand.

use ms_top_rows::calls::Case;
use ms_top_rows::told::all_told_twice;
use std::test::Fail;

/// A trap; what must be true; the size of an object, which is never known.
static ASIDE: &[u8] = br#"check f~
define i32 @main() {
  call void @llvm.trap()
  unreachable
}
declare void @llvm.trap()
~
~
end: trap abort at site 1 in @main
reports: 0
blind: 0
verdict: clean
~
3
====
check f~
define i32 @main() {
  call void @llvm.assume(i1 true)
  ret i32 4
}
declare void @llvm.assume(i1)
~
~
end: exit 4
reports: 0
blind: 0
verdict: clean
~
0
====
check f~
define i32 @main() {
  call void @llvm.assume(i1 false)
  ret i32 4
}
declare void @llvm.assume(i1)
~
~
end: trap unreachable at site 1 in @main
reports: 0
blind: 0
verdict: clean
~
3
====
check f~
define i32 @main() {
  call void @llvm.assume(i1 undef)
  ret i32 4
}
declare void @llvm.assume(i1)
~
~
report 1: branch at site 1 in @main, part 0, bits 0x1 of i1
  origin 1: undef at site 1 in @main
end: reported
reports: 1
blind: 0
verdict: poisoned
~
77
====
check f~
define i32 @main() {
  %1 = alloca i32
  %2 = call i64 @llvm.objectsize.i64.p0(ptr %1, i1 false, i1 true, i1 false)
  %3 = add i64 %2, 3
  %4 = trunc i64 %3 to i32
  ret i32 %4
}
declare i64 @llvm.objectsize.i64.p0(ptr, i1 immarg, i1 immarg, i1 immarg)
~
~
end: exit 2
reports: 0
blind: 0
verdict: clean
~
0
====
check f~
define i32 @main() {
  %1 = call i64 @llvm.objectsize.i64.p0(ptr undef, i1 true, i1 true, i1 false)
  %2 = trunc i64 %1 to i32
  ret i32 %2
}
declare i64 @llvm.objectsize.i64.p0(ptr, i1 immarg, i1 immarg, i1 immarg)
~
~
end: exit 0
reports: 0
blind: 0
verdict: clean
~
0
====
"#;

#[test]
fn asides_are_answered(rt: HostRuntime) -> Result<(), Fail> {
    assert!(rt; all_told_twice::<_, Case>(&rt, rt.alloc(), &[ASIDE]));
    Ok(())
}
