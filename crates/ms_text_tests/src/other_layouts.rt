//! Texts in other layouts than the writer's.

/// Two bytes among eight unset ones.
pub const SHARED_CELL: &str = r#"define i32 @main() {
  %1 = alloca [8 x i8]
  %2 = and i16 undef, -256
  %3 = getelementptr i8, ptr %1, i64 3
  store i16 %2, ptr %3
  %4 = load i8, ptr %1
  %5 = zext i8 %4 to i32
  %6 = call i32 @putchar(i32 %5)
  %7 = getelementptr i8, ptr %1, i64 4
  %8 = load i8, ptr %7
  %9 = zext i8 %8 to i32
  %10 = call i32 @putchar(i32 %9)
  %11 = load i8, ptr %3
  %12 = zext i8 %11 to i32
  %13 = call i32 @putchar(i32 %12)
  ret i32 0
}
declare i32 @putchar(i32)
"#;

/// An addition carries an undefined bit up.
pub const LOST_IN_ADDITION: &str = r#"define i32 @main() {
  %1 = and i32 undef, 1
  %2 = add i32 %1, 1
  %3 = lshr i32 %2, 1
  %4 = icmp eq i32 %3, 0
  br i1 %4, label %5, label %7
5:
  %6 = call i32 @putchar(i32 65)
  ret i32 0
7:
  %8 = call i32 @putchar(i32 66)
  ret i32 0
}
declare i32 @putchar(i32)
"#;

/// A byte that is not set is written to a descriptor.
pub const WRITE_WITH_GAP: &str = r#"define i32 @main() {
  %1 = alloca [4 x i8]
  %2 = call i32 @putchar(i32 62)
  %3 = call ptr @memset(ptr %1, i32 65, i64 2)
  %4 = getelementptr i8, ptr %1, i64 3
  store i8 66, ptr %4
  %5 = call i64 @write(i32 1, ptr %1, i64 4)
  ret i32 0
}
declare i32 @putchar(i32)
declare ptr @memset(ptr, i32, i64)
declare i64 @write(i32, ptr, i64)
"#;

/// A value is used where no path defines it.
pub const USE_BEFORE_DEFINITION: &str = r#"define i32 @main() {
  %1 = call i32 @getchar()
  %2 = icmp eq i32 %1, 0
  br i1 %2, label %3, label %5
3:
  %4 = add i32 %1, 1
  br label %5
5:
  ret i32 %4
}
declare i32 @getchar()
"#;

/// What an ordinary compiler writes.
pub const CLANG_UNOPTIMISED: &str = r#"; ModuleID = 'a.c'
source_filename = "a.c"
target triple = "x86_64-unknown-linux-gnu"
@.str = private unnamed_addr constant [3 x i8] c"ok\00", align 1
; Function Attrs: noinline nounwind optnone uwtable
define dso_local i32 @main() #0 {
  %1 = alloca i32, align 4
  %2 = alloca ptr, align 8
  %3 = alloca i32, align 4
  store i32 0, ptr %1, align 4
  %4 = call noalias ptr @malloc(i64 noundef 16) #3
  store ptr %4, ptr %2, align 8
  store i32 0, ptr %3, align 4
  br label %5

5:                                                ; preds = %14, %0
  %6 = load i32, ptr %3, align 4
  %7 = icmp slt i32 %6, 4
  br i1 %7, label %8, label %17

8:                                                ; preds = %5
  %9 = load i32, ptr %3, align 4
  %10 = load ptr, ptr %2, align 8
  %11 = load i32, ptr %3, align 4
  %12 = sext i32 %11 to i64
  %13 = getelementptr inbounds i32, ptr %10, i64 %12
  store i32 %9, ptr %13, align 4
  br label %14

14:                                               ; preds = %8
  %15 = load i32, ptr %3, align 4
  %16 = add nsw i32 %15, 1
  store i32 %16, ptr %3, align 4
  br label %5, !llvm.loop !6

17:                                               ; preds = %5
  %18 = load ptr, ptr %2, align 8
  %19 = getelementptr inbounds i32, ptr %18, i64 3
  %20 = load i32, ptr %19, align 4
  %21 = icmp eq i32 %20, 3
  br i1 %21, label %22, label %24

22:                                               ; preds = %17
  %23 = call i32 @puts(ptr noundef @.str)
  br label %24

24:                                               ; preds = %22, %17
  %25 = load ptr, ptr %2, align 8
  call void @free(ptr noundef %25) #4
  ret i32 0
}
declare noalias ptr @malloc(i64 noundef) #1
declare i32 @puts(ptr noundef) #2
declare void @free(ptr noundef) #1
attributes #0 = { noinline nounwind optnone uwtable "frame-pointer"="all" }
!llvm.module.flags = !{!0}
!0 = !{i32 1, !"wchar_size", i32 4}
!6 = distinct !{!6, !7}
!7 = !{!"llvm.loop.mustprogress"}
"#;
