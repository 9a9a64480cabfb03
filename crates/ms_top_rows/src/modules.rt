//! Rows of modules that may call every external and every runtime function: a text, what is printed, and how the run ends.

use crate::calls::{Beside, Call, Row, Terms, Wanted, on_text, saying};

/// Declares every external; it stands after the text of each row.
const EXTERNALS: &str = r#"
declare ptr @malloc(i64)
declare ptr @calloc(i64, i64)
declare ptr @realloc(ptr, i64)
declare void @free(ptr)
declare ptr @memcpy(ptr, ptr, i64)
declare ptr @memmove(ptr, ptr, i64)
declare ptr @memset(ptr, i32, i64)
declare i32 @memcmp(ptr, ptr, i64)
declare i64 @strlen(ptr)
declare i32 @putchar(i32)
declare i32 @puts(ptr)
declare i32 @printf(ptr, ...)
declare i32 @getchar()
declare i64 @read(i32, ptr, i64)
declare i64 @write(i32, ptr, i64)
declare void @exit(i32)
declare void @abort()
declare void @llvm.memcpy.p0.p0.i64(ptr, ptr, i64, i1)
declare void @llvm.memmove.p0.p0.i64(ptr, ptr, i64, i1)
declare void @llvm.memset.p0.i64(ptr, i8, i64, i1)
declare void @llvm.lifetime.start.p0(i64, ptr)
declare void @llvm.lifetime.end.p0(i64, ptr)
"#;

/// The slots; they stand before the text of a row with marks.
const SLOTS: &str = r#"@__msan_param_tls = global [100 x i64] zeroinitializer
@__msan_param_origin_tls = global [100 x i32] zeroinitializer
@__msan_retval_tls = global i64 0
@__msan_retval_origin_tls = global i32 0
"#;

/// Declares the runtime functions and the externals that rows with marks call; it stands after the text of such a row.
const RUNTIME: &str = r#"
declare void @__msan_check(i64, i32, i32, i32, i32, i32)
declare void @__msan_check_memory(ptr, i64, i32, i32)
declare void @__msan_check_string(ptr, i32)
declare void @__msan_blind(i64)
declare void @__msan_poison(ptr, i64, i64, i32)
declare void @__msan_unpoison(ptr, i64)
declare void @__msan_copy(ptr, ptr, i64)
declare void @__msan_fill(ptr, i64, i64, i32, i32)
declare void @__msan_store_origin(ptr, i64, i32, i32)
declare i32 @__msan_load_origin(ptr, i64)
declare i64 @__msan_size(ptr)
declare void @__msan_thread_result(ptr, i64, i32, i32)
declare void @__msan_check_format(ptr, i32, ptr, i32)
declare ptr @malloc(i64)
declare ptr @realloc(ptr, i64)
declare void @free(ptr)
declare i32 @putchar(i32)
declare void @llvm.lifetime.start.p0(i64, ptr)
"#;

/// A module's text without the declarations of the externals, what its run prints, how it ends, and the status. The run has
/// no input, the fill a5, ten million steps and one report.
#[derive(Clone, Copy)]
pub struct Run(
    pub &'static str,
    pub &'static [u8],
    pub &'static str,
    pub u8,
);

/// A run with an input, a fill and a number of steps.
#[derive(Clone, Copy)]
pub struct Given(pub &'static [u8], pub &'static str, pub u64, pub Run);

/// A text without the slots and the declarations, at how many reports its run ends, the number of steps, what the run
/// prints, its reports and closing lines, and the status.
#[derive(Clone, Copy)]
pub struct Marked(
    pub &'static str,
    pub u32,
    pub u64,
    pub &'static [u8],
    pub &'static str,
    pub u8,
);

/// What a run is given, a module's text, what `check` prints of it, its reports and closing lines, and the status.
#[derive(Clone, Copy)]
pub struct Checked(
    pub Terms,
    pub &'static str,
    pub &'static [u8],
    pub &'static str,
    pub u8,
);

/// What is wanted of a run that prints `out` and so many `letters` A, has no reports and no blind uses, and ends so.
pub fn closed<'a>(out: &'a [u8], letters: usize, end: &'a str, status: u8) -> Wanted<'a> {
    Wanted {
        out,
        letters,
        err: ["end: ", end, "\nreports: 0\nblind: 0\n"],
        status,
    }
}

/// A call on a module whose text is these three, one after the other.
fn on_texts<'a>(
    words: &'a str,
    texts: [&'a str; 3],
    beside: Beside<'a>,
    wanted: Wanted<'a>,
) -> Call<'a> {
    let [head, piece, tail] = texts;
    Call {
        piece: piece.as_bytes(),
        times: 1,
        tail: tail.as_bytes(),
        beside,
        ..on_text(words, head.as_bytes(), wanted)
    }
}

impl Row for Run {
    fn call(&self) -> Call<'static> {
        let wanted = closed(self.1, 0, self.2, self.3);
        on_texts("run f", ["", self.0, EXTERNALS], Beside::Nothing, wanted)
    }
}

impl Row for Given {
    fn call(&self) -> Call<'static> {
        let terms = Terms {
            input: self.0,
            fill: self.1,
            steps: self.2,
            reports: 1,
        };
        let wanted = closed(self.3.1, 0, self.3.2, self.3.3);
        on_texts("run", ["", self.3.0, EXTERNALS], Beside::On(terms), wanted)
    }
}

impl Row for Marked {
    fn call(&self) -> Call<'static> {
        let terms = Terms {
            input: b"",
            fill: "a5",
            steps: self.2,
            reports: self.1,
        };
        let wanted = saying(self.3, self.4, self.5);
        on_texts("run", [SLOTS, self.0, RUNTIME], Beside::On(terms), wanted)
    }
}

impl Row for Checked {
    fn call(&self) -> Call<'static> {
        let wanted = saying(self.2, self.3, self.4);
        on_texts("check", [self.1, "", ""], Beside::On(self.0), wanted)
    }
}
